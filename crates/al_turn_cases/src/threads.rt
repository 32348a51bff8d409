ghost use Rattle.al_turn.specs.Identities.{HasTurn, one_less};
ghost use Rattle.al_turn.specs.Passes.{identity_of};
ghost use Rattle.std.specs.Prelude.{◌≡◌, ◌^◌, ◌<◌, true, false};

use crate::tally::Tally;
use al_model::Kept;
use al_turn::{Alone, Pass, Seated, Turns, Turnstile};
use std::sync::Wait;
use std::test::Fail;
use std::thread;

/// How many turns each thread takes.
const TURNS: u64 = 1_000;

/// One turn after so many: adds an entry. False where the entry of the turn before isn't shown, or there was no memory.
fn turn<U: Turns<Tally>>(turns: &mut U, origin: u16, done: u64) -> bool
    requires idle { U.taken turns.old ≡ false }
    requires left { HasTurn (U.left turns.old) }
    requires own { U.may_add turns.old origin ≡ true }
    requires few { done < 1000 }
    ensures idle { U.taken turns.new ≡ false }
    ensures left { U.left turns.new ≡ one_less (U.left turns.old) }
    ensures same { (U.may_add turns.new ≡ U.may_add turns.old)
        × (U.identity turns.new ≡ U.identity turns.old) }
{
    let mut tally = turns.take();
    let is_shown = tally.newest(origin) == done;
    let is_added = tally.add(origin, done + 1).is_ok();
    turns.put(tally);
    is_shown && is_added
}

/// All turns of one thread.
fn work<R: Wait>(
    rt: &R,
    turnstile: &Turnstile<Tally>,
    pass: Pass<Tally>,
    origin: u16,
) -> (Pass<Tally>, bool)
    requires table { pass.table ≡ turnstile.now.table }
    requires number { pass.view.number ≡ origin }
    requires left { pass.view.left ≡ 2 ^ 48 }
    ensures { identity_of result.0 ≡ identity_of pass }
{
    let mut seated = Seated::new(rt, turnstile, pass);
    let mut is_right = true;
    for done in 0..TURNS {
        is_right &= turn(&mut seated, origin, done);
    }
    (seated.into_pass(), is_right)
}

#[test]
fn two_threads_take_a_thousand_turns_each(rt: HostRuntime) -> Result<(), Fail> {
    let alloc = rt.alloc();
    let Ok((turnstile, first)) = Turnstile::new(alloc, Tally::new(alloc)) else {
        panic!(rt; "there was no memory for the turnstile")
    };
    let (first, second) = turnstile.split(first);
    let lock = &turnstile;
    let handle = &rt;
    let ((first, first_right), (second, second_right)) = thread::join(
        handle,
        move || work(handle, lock, first, 1),
        move || work(handle, lock, second, 2),
    );
    assert!(rt;
        first_right && second_right,
        "each turn shows the turn before"
    );
    let tally = turnstile.close(vec![in alloc; first, second]?);
    assert_eq!(rt;
        (tally.entries(), tally.count(1), tally.count(2)),
        (2_000, 1_000, 1_000)
    );
    Ok(())
}

#[test]
fn alone_shows_each_turn_the_turn_before(rt: HostRuntime) -> Result<(), Fail> {
    let mut alone = Alone::new(Tally::new(rt.alloc()));
    let is_right = turn(&mut alone, 0, 0) & turn(&mut alone, 0, 1);
    assert!(rt; is_right && alone.into_inner().count(0) == 2);
    Ok(())
}
