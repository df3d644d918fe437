//! Lists of commands to a map.
ghost use Rattle.std.specs.{Prelude.{◌≡◌, ◌<◌, ◌≤◌, ◌^◌, length, IfOk, IsOk, OnOk, OnErr}, List.AllPass};
ghost use Rattle.hashlink_core.specs.Keyed.{entries_of, state_of};
ghost use Rattle.hashlink_model.specs.Entries.{IsEntries};
ghost use Rattle.hashlink_run.specs.Reads.{CallableOn, ClosureSays};
ghost use Rattle.hashlink_run.specs.Run.{LawfulRun, ShownBy, keeps_nodes, reply_total};

use crate::commands::answer_in_room;
use crate::{Command, Reply, reply_count};
use hashlink_map::LinkedHashMap;
use std::alloc::AllocError;
use std::hash::{BuildHasher, Hash};

/// Runs the commands on the map in order and returns the replies: one for each, and one for each step of a
/// cursor.
///
/// The reply to a command that reads a pair is what `keep` returns for that pair. `Command::Keep` removes the
/// pairs for which it returns false. `keep` has to be callable on each pair that the commands may show it. If
/// an insert runs out of memory, its reply is `Refused` with the pair; if a shrink does, its reply is
/// `Denied`; the run continues. Each command has the cost of the map's method that it names.
///
/// Room for all replies is reserved first, from the allocator of the map. If memory for it runs out, or if
/// their number is above `usize::MAX`, it returns `AllocError`, the commands are dropped and the map has not
/// changed. If there is no reply, it needs no memory.
pub fn run<K, V, S, F>(
    map: &mut LinkedHashMap<K, V, S>,
    commands: Vec<Command<K, V>>,
    keep: &F,
) -> Result<Vec<Reply<K, V>>, AllocError>
where
    K: Eq + Hash + Drop,
    V: Drop,
    S: BuildHasher,
    F: Fn(&K, &V) -> bool,
    requires { CallableOn F.Fn keep.now
        (ShownBy K.eq (ClosureSays F.Fn keep.now) (ClosureSays F.Fn keep.now) (state_of map.old)
        commands.items) }

    // A chain of steps has the replies and leads to the state at the end. Along it the nodes stay within the
    // peak. A map that was longer, and has freed no node since, has a free node, and the next command's
    // insert cannot fail.
    ensures ran { IfOk result
        (λ replies. LawfulRun K.eq (ClosureSays F.Fn keep.now) (ClosureSays F.Fn keep.now) (state_of map.old)
        commands.items replies.items (state_of map.new)) }
    ensures unchanged { OnErr result (map.new ≡ map.old) }
    ensures none { reply_total commands.items ≡ 0 → IsOk result }

    // So a map that is left shorter than it was, by commands that freed no node, has a free node.
    ensures spare { OnOk result (AllPass keeps_nodes commands.items
        → length (entries_of map.new) < length (entries_of map.old) → 1 ≤ (state_of map.new).spare) }
    ensures distinct { OnOk result (IsEntries K.eq (entries_of map.new)) }
{
    let mut replies = Vec::with_capacity(map.allocator(), reply_total(&commands)?)?;
    for command in commands {
        answer_in_room(map, command, keep, keep, &mut replies);
    }

    // The clauses of `len` state that no two keys are equal, here for this map.
    map.len();
    Ok(replies)
}

// Returns the number of replies to the commands. A number above `usize::MAX` counts as an allocation that
// fails.
fn reply_total<K, V>(commands: &[Command<K, V>]) -> Result<usize, AllocError>
    ensures total { IfOk result (λ total. total ≡ reply_total commands.now) }
    ensures above { OnErr result (2 ^ 64 ≤ reply_total commands.now) }
{
    let mut total: usize = 0;
    for command in commands {
        let Some(sum) = total.checked_add(reply_count(command)) else {
            return Err(AllocError);
        };
        total = sum;
    }
    Ok(total)
}
