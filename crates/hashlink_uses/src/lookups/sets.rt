//! Look-ups of a set after a change.
ghost use Rattle.std.specs.Prelude.{◌≡◌, ◌≢◌, [], true, false, IsTrue, OnOk, nat_eq, string_bytes};
ghost use Rattle.std.specs.List.{list_any};
ghost use Rattle.hashlink.specs.{Sets.elements_of, Texts.is_text};

use hashlink::LinkedHashSet;
use std::hash::BuildHasher;

/// Inserts a number, which is present afterwards.
pub fn put<S: BuildHasher>(numbers: &mut LinkedHashSet<u64, S>, number: u64) -> Result<(), u64>
    ensures { OnOk result (list_any (nat_eq number) (elements_of numbers.new) ≡ true) }
{
    numbers.insert(number)?;
    Ok(())
}

/// Removes a number, which is absent afterwards.
pub fn forget<S: BuildHasher>(numbers: &mut LinkedHashSet<u64, S>, number: u64)
    ensures { list_any (nat_eq number) (elements_of numbers.new) ≡ false }
{
    numbers.remove(&number);
}

/// Removes a number. Every other number is found as before.
pub fn forget_one<S: BuildHasher>(
    numbers: &mut LinkedHashSet<u64, S>,
    number: u64,
    other: u64,
) -> bool
    requires { number ≢ other }
    ensures { result ≡ list_any (nat_eq other) (elements_of numbers.old) }
{
    numbers.remove(&number);
    numbers.contains(&other)
}

/// Returns whether there is no element at the front, which holds only for an empty set.
pub fn is_vacant<S: BuildHasher>(numbers: &LinkedHashSet<u64, S>) -> bool
    ensures { IsTrue result → elements_of numbers.now ≡ [] }
{
    numbers.front().is_none()
}

/// Inserts a name, which is present afterwards.
pub fn put_name<S: BuildHasher>(
    names: &mut LinkedHashSet<String, S>,
    name: String,
) -> Result<(), String>
    ensures { OnOk result (list_any (is_text (string_bytes name)) (elements_of names.new) ≡ true) }
{
    names.insert(name)?;
    Ok(())
}

/// Removes a name, which is absent afterwards.
pub fn forget_name<S: BuildHasher>(names: &mut LinkedHashSet<String, S>, name: &str)
    ensures { list_any (is_text name.now) (elements_of names.new) ≡ false }
{
    names.remove(name);
}

/// Removes a name. Every other name is found as before.
pub fn forget_one_name<S: BuildHasher>(
    names: &mut LinkedHashSet<String, S>,
    name: &str,
    other: &str,
) -> bool
    requires { name.now ≢ other.now }
    ensures { result ≡ list_any (is_text other.now) (elements_of names.old) }
{
    names.remove(name);
    names.contains(other)
}
