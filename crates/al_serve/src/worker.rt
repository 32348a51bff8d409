//! A worker: one thread's part of the serving, with a pass at the turnstile and a door of its own.

ghost use Rattle.std.specs.Prelude.{◌≡◌, ◌≤◌, ◌<◌, ◌*◌, All, false, true};
ghost use Rattle.al_serve.specs.declared.worker.Worker.{Worker};
ghost use Rattle.al_http.specs.Streams.{request_limit};
ghost use Rattle.al_serve.specs.Left.{HasTurns, IsCounted};
ghost use Rattle.al_serve.specs.Workers.{AllWork, HasWorked, IsReady, Serves, work_of};

use crate::conversation::converse;
use crate::doors::{DoorFault, Doors};
use al_base::Clock;
use al_http::{Framer, Service};
use al_model::Kept;
use al_turn::{Pass, Seated, Turns, Turnstile};
use std::sync::Wait;
use std::thread;
use std::thread::Threads;

/// What a thread serves with, and what it has done.
#[derive(Drop)]
pub struct Worker<T, N, V, K> {
    /// The pass of its number. It is there before and after each call.
    pub pass: Option<Pass<T>>,
    /// The origin of its entries: the pass's number.
    pub origin: u16,
    pub door: N,
    pub service: V,
    pub framer: Framer,
    pub clock: K,
    /// How many connections it serves in all.
    pub connections: u64,
    /// How many it has served.
    pub served: u64,
    /// How many entries it has added.
    pub added: u64,
    /// Whether its door failed.
    pub faulted: bool,
}

/// What came of a stretch of work.
#[derive(Clone, Copy, Debug, PartialEq, Eq)]
struct Stretch {
    served: u64,
    added: u64,
    faulted: bool,
}

/// Serves the connections of the worker's door one after the other, up to its number, the door's end or a fault of the door.
///
/// A fault of a connection's source or sink ends that connection alone. Every connection goes back to the door.
pub fn work<R: Wait, T: Kept, N: Doors, V: Service<T>, K: Clock>(
    rt: &R,
    turnstile: &Turnstile<T>,
    worker: &mut Worker<T, N, V, K>,
)
    requires { IsReady turnstile.now (work_of N.state K.readings worker.old) }
    ensures worked { HasWorked (V.answers worker.old.service)
        (work_of N.state K.readings worker.old) (work_of N.state K.readings worker.new) }
    ensures same { worker.new.service ≡ worker.old.service }
{
    let pass = worker.pass.take().unwrap();
    let mut turns = Seated::new(rt, turnstile, pass);
    let stretch = serve(
        &mut turns,
        &mut worker.service,
        &mut worker.framer,
        worker.origin,
        &mut worker.door,
        &mut worker.clock,
        worker.connections - worker.served,
    );
    worker.pass = Some(turns.into_pass());
    worker.served += stretch.served;
    worker.added += stretch.added;
    worker.faulted = stretch.faulted;
}

/// Lets all of the workers work, each in a thread of its own where one can be made.
pub fn work_all<
    R: Threads + Wait + Sync,
    T: Kept + Send,
    N: Doors + Send,
    V: Service<T> + Send,
    K: Clock + Send,
>(rt: &R, turnstile: &Turnstile<T>, workers: &mut [Worker<T, N, V, K>])
where
    N::In: Send,
    N::Out: Send,
    requires { All (λ (w : Worker T N V K). IsReady turnstile.now (work_of N.state K.readings w))
        workers.old }
    ensures worked { AllWork V.answers N.state K.readings workers.old workers.new }
{
    let threads = workers.len().max(1);
    thread::for_each_mut(
        rt,
        workers,
        threads,
        &|_, worker| work(rt, turnstile, worker),
    );
}

/// Serves so many connections of the door, or fewer where it comes to its end or fails.
fn serve<T: Kept, U: Turns<T>, N: Doors, V: Service<T>, K: Clock>(
    turns: &mut U,
    service: &mut V,
    framer: &mut Framer,
    origin: u16,
    door: &mut N,
    clock: &mut K,
    number: u64,
) -> Stretch
    requires idle { U.taken turns.old ≡ false }
    requires own { U.may_add turns.old origin ≡ true }
    requires left { HasTurns (U.left turns.old) (request_limit * number) }
    ensures serves { Serves (V.answers service.old) (U.may_add turns.old) origin (U.seen turns.old)
        (U.seen turns.new)
        (N.state door.old) (N.state door.new) (K.readings clock.old) (K.readings clock.new) number
        result.served result.added result.faulted }
    ensures idle { U.taken turns.new ≡ false }
    ensures counted { 0 < result.added → IsCounted (U.seen turns.new) }
    ensures identity { U.identity turns.new ≡ U.identity turns.old }
    ensures may_add { U.may_add turns.new ≡ U.may_add turns.old }
    ensures same { service.new ≡ service.old }
{
    let mut added = 0;
    for served in 0..number {
        match door.next_connection() {
            Ok(Some((mut input, mut output))) => {
                let ending = converse(
                    turns,
                    service,
                    framer,
                    origin,
                    &mut input,
                    &mut output,
                    clock,
                );
                door.finish(input, output);
                added += ending.entries;
            }
            Ok(None) => return stretch_of(served, added, false),
            Err(DoorFault) => return stretch_of(served, added, true),
        }
    }
    stretch_of(number, added, false)
}

fn stretch_of(served: u64, added: u64, faulted: bool) -> Stretch
    ensures { result ≡ record { served = served; added = added; faulted = faulted } }
{
    Stretch {
        served,
        added,
        faulted,
    }
}
