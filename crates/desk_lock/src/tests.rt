ghost use Rattle.std.specs.Prelude.{◌≡◌, ◌<◌, ◌≤◌, IfOk};
ghost use Rattle.desk_lock.specs.Passes.{view, IsPassOf};

use crate::NoMemory;
use std::alloc::{AllocError, Global};
use std::process::Abort;
use std::sync::{Arc, Wait};
use std::test::Fail;
use std::thread::Threads;

mod adding;
mod crew;
mod handing;

use adding::{AddingDesk, AddingPass};
use crew::crew;
use handing::{ExchangeDesk, handed_over};

// A desk over a number. Where memory is refused, the number comes back and is tried once more.
fn opened<R: Abort>(
    rt: &R,
    alloc: Global,
    number: u64,
    passes: u32,
) -> Result<(AddingDesk, AddingPass), AllocError>
    requires { (0 < passes) × (passes ≤ 64) }
    ensures { IfOk result (λ r. IsPassOf r.0 r.1 × ((view r.1).low ≡ 0) × ((view r.1).high ≡ passes)) }
{
    match AddingDesk::open(alloc, number, passes) {
        Ok(both) => Ok(both),
        Err(NoMemory(again)) => {
            assert!(rt; again == number);
            AddingDesk::open(alloc, again, passes).map_err(|_| AllocError)
        }
    }
}

// The sum after as many threads as there are passes added 0 to 999 each.
fn sum_of_a_crew<R: Threads + Wait + Abort + Sync>(
    rt: &R,
    alloc: Global,
    passes: u32,
) -> Result<u64, AllocError>
    requires { (0 < passes) × (passes ≤ 64) }
{
    let (desk, pass) = opened(rt, alloc, 7, passes)?;
    let pass = crew(rt, &desk, pass, 0, passes);
    Ok(desk.close(rt, pass))
}

#[test]
fn a_reply_is_the_state_at_its_turn(rt: HostRuntime) -> Result<(), Fail> {
    let (desk, mut pass) = opened(&rt, rt.alloc(), 5, 1)?;
    let first = desk.turn(&rt, &mut pass, 3);
    let second = desk.turn(&rt, &mut pass, 4);
    let end = desk.close(&rt, pass);
    assert!(rt; first == 5 && second == 8 && end == 12);
    Ok(())
}

#[test]
fn a_split_pass_calls_and_is_joined(rt: HostRuntime) -> Result<(), Fail> {
    let (desk, mut pass) = opened(&rt, rt.alloc(), 0, 4)?;
    let mut worker = desk.split(&mut pass, 2);
    let first = desk.turn(&rt, &mut worker, 1);
    let second = desk.turn(&rt, &mut pass, 10);
    desk.join(&mut pass, worker);
    let third = desk.turn(&rt, &mut pass, 100);
    let end = desk.close(&rt, pass);
    assert!(rt; first == 0 && second == 1 && third == 11 && end == 111);
    Ok(())
}

#[test]
fn two_threads_end_with_the_same_sum_each_time(rt: HostRuntime) -> Result<(), Fail> {
    for _ in 0..20 {
        let sum = sum_of_a_crew(&rt, rt.alloc(), 2)?;
        assert!(rt; sum == 999_007);
    }
    Ok(())
}

#[test]
fn sixteen_threads_end_with_the_same_sum_each_time(rt: HostRuntime) -> Result<(), Fail> {
    for _ in 0..5 {
        let sum = sum_of_a_crew(&rt, rt.alloc(), 16)?;
        assert!(rt; sum == 7_992_007);
    }
    Ok(())
}

#[test]
fn a_value_goes_from_one_caller_to_another(rt: HostRuntime) -> Result<(), Fail> {
    let alloc = rt.alloc();
    let mut parcel = Vec::new(alloc);
    parcel.extend_from_slice(&[7, 9])?;
    let Ok((desk, mut first)) = ExchangeDesk::<Vec<u32>>::open(alloc, None, 2) else {
        return Err(Fail::from(AllocError));
    };
    let second = desk.split(&mut first, 1);
    let (fetched, found, left) = handed_over(&rt, desk, first, second, parcel);
    assert!(rt; found.is_none() && left.is_none() && fetched.as_slice() == [7, 9].as_slice());
    Ok(())
}

#[test]
fn a_desk_that_is_dropped_drops_its_object(rt: HostRuntime) -> Result<(), Fail> {
    let shared = Arc::new(rt.alloc(), 7u8)?;
    let desk = ExchangeDesk::open(rt.alloc(), Some(Arc::try_clone(&shared)?), 1);
    assert!(rt; desk.is_err() || Arc::strong_count(&shared) == 2);
    drop(desk);
    assert!(rt; Arc::strong_count(&shared) == 1);
    Ok(())
}
