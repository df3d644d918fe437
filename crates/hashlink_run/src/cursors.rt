//! The steps of a cursor in a map.
ghost use Rattle.std.specs.Prelude.{◌≡◌, ◌+◌, ◌≤◌, ◌++◌, [], ◌∷◌, List, length, vec_len, vec_capacity};
ghost use Rattle.hashlink_core.specs.Keyed.{state_of};
ghost use Rattle.hashlink_map.specs.Cursor.{cursor_map, cursor_state};
ghost use Rattle.hashlink_run.specs.CursorSteps.{CursorStepped, CursorSteps, ReadByStep, ReadOnWalk};
ghost use Rattle.hashlink_run.specs.{CursorSteps.first_place, Reads.{CallableOn, ClosureSays}};

use crate::commands::{insert_reply, said_of};
use crate::{CursorStep, Reply};
use hashlink_map::{CursorMut, LinkedHashMap};
use std::hash::{BuildHasher, Hash};

// Runs the steps on a cursor that starts on the first entry, and pushes the reply to each, for which there is
// room.
pub(crate) fn walk_cursor<K, V, S, B, F>(
    map: &mut LinkedHashMap<K, V, S>,
    steps: Vec<CursorStep<K, V>>,
    says: &F,
    replies: &mut Vec<Reply<K, V, B>>,
)
where
    K: Eq + Hash + Drop,
    V: Drop,
    S: BuildHasher,
    F: Fn(&K, &V) -> B,
    requires says { CallableOn F.Fn says.now
        (ReadOnWalk K.eq (ClosureSays F.Fn says.now) (first_place (state_of map.old)) steps.items) }
    requires room { vec_len replies.old + length steps.items ≤ vec_capacity replies.old }
    ensures walked { (more : List (Reply K V B))
        × CursorSteps K.eq (ClosureSays F.Fn says.now) (state_of map.old) steps.items more (state_of map.new)
        × (replies.new.items ≡ replies.old.items ++ more) }
    ensures len { vec_len replies.new ≡ vec_len replies.old + length steps.items }
    ensures capacity { vec_capacity replies.new ≡ vec_capacity replies.old }
{
    let mut cursor = map.cursor_front_mut();
    for step in steps {
        replies.push_reserved(reply_of_step(&mut cursor, step, says));
    }
}

// Runs the step on the cursor, and returns its reply.
fn reply_of_step<K, V, S, B, F>(
    cursor: &mut CursorMut<'_, K, V, S>,
    step: CursorStep<K, V>,
    says: &F,
) -> Reply<K, V, B>
where
    K: Eq + Hash + Drop,
    V: Drop,
    S: BuildHasher,
    F: Fn(&K, &V) -> B,
    requires says { CallableOn F.Fn says.now (ReadByStep (cursor_state cursor.old) step) }
    ensures same_map { (cursor_map cursor.new).ghost_name ≡ (cursor_map cursor.old).ghost_name }
    ensures stepped { CursorStepped K.eq (ClosureSays F.Fn says.now)
        (cursor_state cursor.old) step (result ∷ []) (cursor_state cursor.new) }
{
    match step {
        CursorStep::Next => {
            cursor.move_next();
            Reply::Seen(said_of(cursor.current_pair(), says))
        }
        CursorStep::Prev => {
            cursor.move_prev();
            Reply::Seen(said_of(cursor.current_pair(), says))
        }
        CursorStep::Current => Reply::Seen(said_of(cursor.current_pair(), says)),
        CursorStep::PeekNext => Reply::Seen(said_of(cursor.next_pair(), says)),
        CursorStep::PeekPrev => Reply::Seen(said_of(cursor.prev_pair(), says)),
        CursorStep::Before(key, value) => insert_reply(cursor.insert_before(key, value)),
        CursorStep::After(key, value) => insert_reply(cursor.insert_after(key, value)),
    }
}
