//! Settings in sections, laid over others.
use crate::few::passes;
use hashlink::LinkedHashMap;
use hashlink_uses::settings::{Sections, lay_over, remove_section, set_section};
use std::alloc::{AllocError, Global};
use std::process::ExitCode;

fn setting(alloc: Global, key: &str, value: &str) -> Result<(String, String), AllocError> {
    let key = String::from_str(alloc, key)?;
    let value = String::from_str(alloc, value)?;
    Ok((key, value))
}

/// A section with one setting.
fn section_of(
    alloc: Global,
    key: &str,
    value: &str,
) -> Result<LinkedHashMap<String, String>, AllocError> {
    let pair = setting(alloc, key, value)?;
    let mut section = LinkedHashMap::new(alloc);
    match section.insert(pair.0, pair.1) {
        Ok(_) => Ok(section),
        Err(_) => Err(AllocError),
    }
}

/// Puts a section there, and returns whether there was memory.
fn put(
    alloc: Global,
    sections: &mut Sections,
    name: &str,
    section: LinkedHashMap<String, String>,
) -> bool {
    match String::from_str(alloc, name) {
        Ok(name) => set_section(sections, name, section).is_ok(),
        Err(_) => false,
    }
}

/// Puts a section with one setting there, and returns whether there was memory.
fn put_setting(alloc: Global, sections: &mut Sections, name: &str, key: &str, value: &str) -> bool {
    match section_of(alloc, key, value) {
        Ok(section) => put(alloc, sections, name, section),
        Err(_) => false,
    }
}

/// Whether the section has the setting.
fn is_set(sections: &Sections, name: &str, key: &str, value: &str) -> bool {
    match sections.get(name) {
        Some(section) => match section.get(key) {
            Some(found) => found.as_str() == value,
            None => false,
        },
        None => false,
    }
}

/// Lays the other sections over these, and returns whether there was memory.
fn lay_others(alloc: Global, sections: &mut Sections, mut others: Sections) -> bool {
    put_setting(alloc, &mut others, "editor", "tabs", "4")
        & put_setting(alloc, &mut others, "shell", "prompt", "$")
        & lay_over(sections, others).is_ok()
}

/// Whether a section takes the other's settings, and a new section is there until it is removed.
fn are_laid_over(alloc: Global, sections: &mut Sections) -> bool {
    put_setting(alloc, sections, "editor", "tabs", "8")
        & lay_others(alloc, sections, LinkedHashMap::new(alloc))
        & is_set(sections, "editor", "tabs", "4")
        & is_set(sections, "shell", "prompt", "$")
        & (sections.len() == 2)
        & remove_section(sections, "shell").is_some()
        & (sections.len() == 1)
}

#[test]
fn a_section_takes_the_others_settings(rt: HostRuntime) -> ExitCode {
    passes(are_laid_over(rt.alloc(), &mut LinkedHashMap::new(rt.alloc())))
}
