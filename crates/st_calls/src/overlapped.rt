//! A test that stops a machine of `st_ahead` while two entries are in flight, as no run does, and
//! compares it with constants of an independent model. A multiplication of 12 ticks and an addition
//! that runs ahead of it are in flight at tick 10; `stop` has to flush both and restore the index
//! word.
//!
//! Proved: nothing of the numbers; the small contracts only carry the protocol of the calls from
//! one helper to the next (docs/inside.md has that protocol). Pinned: the expected numbers, which
//! model/overlap.py gives. Free: the helpers; other programs may be tested in this way.
ghost use Rattle.std.specs.Prelude.{◌≡◌, ◌+◌, ◌<◌, ◌≤◌, IfOk};
ghost use Rattle.st_ahead.specs.Overlap.{Ready};
ghost use Rattle.st_ahead.specs.Calls.{MaySettle};

use crate::blank;
use st_ahead::{Event, Machine, Settled};
use st_banks::Delays;
use st_state::State;
use std::alloc::{AllocError, Global};
use std::process::Abort;
use std::test::Fail;

// The state before a multiplication, which takes 12 ticks, an addition to index word 1, and a wait;
// these instructions begin at word 32.
fn opened(alloc: Global) -> Result<State, Fail> {
    let mut state = blank::opened(alloc)?;
    state.store(32, 0x000A_00F0_0000_0520);
    state.store(33, 0x0000_4330_0000_0970);
    state.store(40, 7);
    Ok(state)
}

// A machine of four levels before its first tick, whose reads take one tick each.
fn machine_at_start(rt: &impl Abort, alloc: Global, state: State) -> Result<Machine<4>, Fail>
    ensures ready { IfOk result (λ m. m.phase ≡ Ready) }
    ensures first { IfOk result (λ m. m.now ≡ 0) }
    ensures done { IfOk result (λ m. m.state.done ≡ 0) }
{
    assert!(rt; state.done == 0 && !state.enabled && !state.waiting);
    match Delays::new(alloc, &[1]) {
        Ok(delays) => Ok(Machine::new(state, delays)),
        Err(_) => Err(Fail::from(AllocError)),
    }
}

// Makes a tick at which no entry completes.
fn make_tick(rt: &impl Abort, machine: &mut Machine<4>)
    requires ready { machine.old.phase ≡ Ready }
    requires early { machine.old.now < 1000 }
    requires done { machine.old.state.done ≡ 0 }

    ensures turn { MaySettle machine.new }
    ensures now { machine.new.now ≡ machine.old.now }
    ensures done { machine.new.state.done ≡ 0 }
{
    let Event::Passed = machine.tick() else {
        panic!(rt; "an entry is done");
    };
}

// Settles the machine, which continues.
fn settle(rt: &impl Abort, machine: &mut Machine<4>)
    requires turn { MaySettle machine.old }
    requires done { machine.old.state.done ≡ 0 }

    ensures ready { machine.new.phase ≡ Ready }
    ensures now { machine.new.now ≡ machine.old.now + 1 }
    ensures done { machine.new.state.done ≡ 0 }
{
    let Settled::Goes = machine.settle() else {
        panic!(rt; "something else comes");
    };
}

// Makes `count` ticks at which no entry completes, and settles the machine.
fn make_ticks(rt: &impl Abort, machine: &mut Machine<4>, count: u64)
    requires ready { machine.old.phase ≡ Ready }
    requires early { machine.old.now + count ≤ 1000 }
    requires done { machine.old.state.done ≡ 0 }

    ensures ready { machine.new.phase ≡ Ready }
    ensures now { machine.new.now ≡ machine.old.now + count }
    ensures done { machine.new.state.done ≡ 0 }
{
    'ticks: for _k in 0..count {
        make_tick(rt, machine);
        settle(rt, machine);
    }
}

#[test]
fn a_machine_that_is_stopped_between_two_entries_drops_its_levels(
    rt: HostRuntime,
) -> Result<(), Fail> {
    let alloc = rt.alloc();
    let state = opened(alloc)?;
    let mut machine = machine_at_start(&rt, alloc, state)?;
    make_ticks(&rt, &mut machine, 10);
    make_tick(&rt, &mut machine);
    assert_eq!(rt; machine.ring().len(), 2);
    assert_eq!(rt; machine.index()[1], 1 << 46);
    assert_eq!(rt; machine.stop(), 2);
    assert_eq!(rt; machine.ring().len(), 0);
    let view = machine.view();
    assert_eq!(rt; (view.tick, view.done), (10, 0));
    assert_eq!(rt; view.x, [0; 16]);
    assert_eq!(rt; view.levels, [None; 8]);
    let state = machine.state();
    assert_eq!(rt; (state.ic, state.word(40)), (64, 7));
    Ok(())
}
