//! Hands on one thread: what each is given, and in which order.
ghost use Rattle.std.specs.Prelude.{◌≡◌};
ghost use Rattle.steal_pool.specs.Hands.{IsNewHand, bound_of, spare_of};

mod asked;

use std::process::Abort;
use std::test::Fail;
use steal_pool::{Hand, Look, Pool};

/// Asks that a hand gives this next.
fn gives(rt: &impl Abort, hand: &mut Hand, look: Look)
    ensures bounded { bound_of hand.new ≡ bound_of hand.old }
    ensures spare { spare_of hand.new ≡ spare_of hand.old }
{
    assert!(rt; hand.next() == look);
}

#[test]
fn gives_what_another_hand_pushed(rt: HostRuntime) -> Result<(), Fail> {
    let mut hands = Pool::new(rt.alloc(), 2, 2, 8)?;
    let second = hands.remove(1);
    let first = hands.remove(0);
    gives_in_turn(&rt, first, second);
    Ok(())
}

/// Whether the second hand is given the first number that the first hand pushed, and the first hand its own
/// second one.
fn gives_in_turn(rt: &impl Abort, mut first: Hand, mut second: Hand)
    requires { IsNewHand 2 2 8 first }
{
    first.push(5);
    first.push(7);
    gives(rt, &mut second, Look::Frame(5));
    gives(rt, &mut first, Look::Frame(7));
    gives(rt, &mut second, Look::Empty);
    gives(rt, &mut first, Look::Empty);
}

#[test]
fn gives_its_own_before_those_of_others(rt: HostRuntime) -> Result<(), Fail> {
    let mut hands = Pool::new(rt.alloc(), 2, 2, 8)?;
    let second = hands.remove(1);
    let first = hands.remove(0);
    gives_its_own_first(&rt, first, second);
    Ok(())
}

/// Whether each hand is given what it pushed, the oldest first, and what the other one has left only then.
fn gives_its_own_first(rt: &impl Abort, mut first: Hand, mut second: Hand)
    requires first { IsNewHand 2 2 8 first }
    requires second { IsNewHand 2 2 8 second }
{
    first.push(5);
    first.push(7);
    second.push(3);
    gives(rt, &mut first, Look::Frame(5));
    gives(rt, &mut second, Look::Frame(3));
    gives(rt, &mut second, Look::Frame(7));
    gives(rt, &mut first, Look::Empty);
    gives(rt, &mut second, Look::Empty);
}

#[test]
fn takes_round_the_ring(rt: HostRuntime) -> Result<(), Fail> {
    let mut hands = Pool::new(rt.alloc(), 3, 2, 8)?;
    let last = hands.remove(2);
    let second = hands.remove(1);
    let first = hands.remove(0);
    takes_from_the_one_behind(&rt, first, second, last);
    Ok(())
}

/// Whether a hand without numbers takes from the one behind it in the ring before it takes from the next.
fn takes_from_the_one_behind(rt: &impl Abort, mut first: Hand, mut second: Hand, mut last: Hand)
    requires first { IsNewHand 3 2 8 first }
    requires second { IsNewHand 3 2 8 second }
    requires last { IsNewHand 3 2 8 last }
{
    first.push(1);
    first.push(2);
    second.push(3);
    second.push(4);
    gives(rt, &mut last, Look::Frame(1));
    last.push(5);
    gives(rt, &mut first, Look::Frame(2));
    gives(rt, &mut first, Look::Frame(3));
    gives(rt, &mut second, Look::Frame(4));
    gives(rt, &mut second, Look::Frame(5));
    gives(rt, &mut last, Look::Empty);
}
