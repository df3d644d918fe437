//! Names, settings, lines, squares and cubes.
use crate::few::{is_pair, passes};
use hashlink::{LinkedHashMap, LinkedHashSet, LruCache};
use hashlink_uses::lines::distinct_lines;
use hashlink_uses::memo::{CubeError, Cubes, Squares, shared_cube, shared_square};
use hashlink_uses::names::{Answer, address_of, learn, sweep};
use hashlink_uses::settings::merge;
use std::alloc::{AllocError, Global};
use std::hash::RandomState;
use std::process::ExitCode;
use std::sync::Mutex;

type Names = LruCache<String, Answer, RandomState>;

/// Learns a name.
fn name_learnt(
    alloc: Global,
    names: &mut Names,
    name: &str,
    answer: Answer,
) -> Result<(), AllocError> {
    let name = String::from_str(alloc, name)?;
    match learn(names, name, answer) {
        Ok(_) => Ok(()),
        Err(_) => Err(AllocError),
    }
}

/// Learns three names, each with an address that is valid until a time.
fn names_learnt(alloc: Global, names: &mut Names) -> Result<(), AllocError> {
    for (name, address, expires) in [
        ("rattle.example", 0x0a00_0001, 60),
        ("mail.example", 0x0a00_0002, 120),
        ("www.example", 0x0a00_0003, 180),
    ] {
        name_learnt(alloc, names, name, Answer { address, expires })?;
    }
    Ok(())
}

/// The addresses of three names at a time, of which the first is no longer valid; then how many names a sweep
/// leaves, and whether the least recently used of them is the expected one.
fn names_at_100(names: &mut Names) -> ([Option<u32>; 3], usize, bool) {
    let found = [
        address_of(names, "rattle.example", 100),
        address_of(names, "www.example", 100),
        address_of(names, "mail.example", 100),
    ];
    sweep(names, 100);
    let is_www = match names.peek_lru() {
        Some((name, _)) => name.as_str() == "www.example",
        None => false,
    };
    (found, names.len(), is_www)
}

/// Whether the names are learnt, and found at that time as expected.
fn are_found(alloc: Global, names: &mut Names) -> bool {
    names_learnt(alloc, names).is_ok()
        & (names_at_100(names) == ([None, Some(0x0a00_0003), Some(0x0a00_0002)], 2, true))
}

#[test]
fn names_are_found_until_they_expire(rt: HostRuntime) -> ExitCode {
    passes(match RandomState::new(&rt) {
        Ok(hasher) => are_found(
            rt.alloc(),
            &mut LruCache::with_hasher(rt.alloc(), 3, hasher),
        ),
        Err(_) => false,
    })
}

type Settings = LinkedHashMap<&'static str, &'static str>;

type Setting = (&'static str, &'static str);

/// A map of the given settings.
fn settings_of(alloc: Global, settings: &[Setting]) -> Result<Settings, AllocError> {
    LinkedHashMap::from_iter(alloc, settings.iter().copied())
}

/// Lets a user's settings override others, and returns whether there was memory.
fn lay_over(alloc: Global, settings: &mut Settings) -> bool {
    match settings_of(alloc, &[("tabs", "4"), ("editor", "ed"), ("wrap", "yes")]) {
        Ok(own) => merge(settings, own).is_ok(),
        Err(_) => false,
    }
}

/// Whether the map has exactly the wanted settings, in their order.
fn are_these(settings: &Settings, wanted: &[Setting]) -> bool {
    let mut left = settings.iter();
    let mut all = true;
    for (key, value) in wanted {
        all &= is_pair(left.next(), *key, *value);
    }
    all & left.next().is_none()
}

/// Whether a user's settings override the ones with which a program begins.
fn is_laid_over(alloc: Global, settings: &mut Settings) -> bool {
    let merged = &[
        ("colour", "auto"),
        ("editor", "ed"),
        ("pager", "less"),
        ("tabs", "4"),
        ("wrap", "yes"),
    ];
    lay_over(alloc, settings) & are_these(settings, merged)
}

#[test]
fn a_setting_keeps_its_place_and_takes_the_other_value(rt: HostRuntime) -> ExitCode {
    let begun_with = &[("colour", "auto"), ("editor", "vi"), ("pager", "less")];
    passes(match settings_of(rt.alloc(), begun_with) {
        Ok(mut settings) => is_laid_over(rt.alloc(), &mut settings),
        Err(_) => false,
    })
}

/// The lines that were typed into a shell.
const HISTORY: &str = "ls\ncd src\nls\nmake\nmake\ncd ..\n\nls\ncd src\n\nexit";

/// Adds a line to a text, and returns whether there was memory.
fn add_line(text: &mut String, line: &str) -> bool {
    text.push_str(line).is_ok() & text.push('\n').is_ok()
}

/// Adds each of the lines.
fn add_lines(text: &mut String, lines: LinkedHashSet<&str>) -> bool {
    let mut all = true;
    for line in lines {
        all &= add_line(text, line);
    }
    all
}

/// Adds the first appearances of the history's lines.
fn add_history(alloc: Global, text: &mut String) -> bool {
    match distinct_lines(alloc, HISTORY) {
        Ok(lines) => add_lines(text, lines),
        Err(_) => false,
    }
}

/// Whether the first appearances of the history's lines are the expected ones.
fn is_history(alloc: Global, text: &mut String) -> bool {
    add_history(alloc, text) & (text.as_str() == "ls\ncd src\nmake\ncd ..\n\nexit\n")
}

#[test]
fn a_line_is_shown_where_it_appears_first(rt: HostRuntime) -> ExitCode {
    passes(is_history(rt.alloc(), &mut String::new(rt.alloc())))
}

#[test]
fn a_square_is_found_again(rt: HostRuntime) -> ExitCode {
    let mut squares = Squares::new(rt.alloc(), 1);
    let found = [
        squares.get(3),
        squares.get(3),
        squares.get(u32::MAX),
        squares.get(3),
    ];
    passes(found == [9, 9, 18_446_744_065_119_617_025, 9])
}

#[test]
fn a_square_is_found_behind_a_lock(rt: HostRuntime) -> ExitCode {
    let memo = Mutex::new(Squares::new(rt.alloc(), 1));
    let found = [shared_square(&memo, 4), shared_square(&memo, 4)];
    passes(found == [16, 16])
}

/// Whether cubes are found, anew and again, and one that is too large is not.
fn are_cubes(cubes: &mut Cubes) -> bool {
    let found = [
        cubes.get(3),
        cubes.get(3),
        cubes.get(2_642_245),
        cubes.get(2_642_246),
        cubes.get(3),
    ];
    found
        == [
            Ok(27),
            Ok(27),
            Ok(18_446_724_184_312_856_125),
            Err(CubeError::TooLarge),
            Ok(27),
        ]
}

#[test]
fn a_cube_is_found_again(rt: HostRuntime) -> ExitCode {
    passes(are_cubes(&mut Cubes::new(rt.alloc(), 1)))
}

#[test]
fn a_cube_is_found_behind_a_lock(rt: HostRuntime) -> ExitCode {
    let memo = Mutex::new(Cubes::new(rt.alloc(), 1));
    let found = [
        shared_cube(&memo, 3),
        shared_cube(&memo, 3),
        shared_cube(&memo, u64::MAX),
        shared_cube(&memo, 5),
    ];
    passes(found == [Ok(27), Ok(27), Err(CubeError::TooLarge), Ok(125)])
}
