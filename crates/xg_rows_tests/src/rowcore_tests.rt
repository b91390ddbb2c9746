//! Two jobs over three rows and two stripes.
ghost use Rattle.std.specs.Prelude.{◌≡◌, ◌<◌, [], ◌∷◌, IfOk};
ghost use Rattle.def_history.specs.Packets.{IsPacketOf};
ghost use Rattle.xg_rows_tests.specs.Twofold.{twofold};

use std::alloc::{AllocError, Global};
use std::marker::{Send, Sync};
use std::process::Abort;
use std::test::Fail;
use xg_rowcore::{LinkedRows, Packet, RowName, Stripe};

/// The first job has the amounts 0, 1 and 2, the second 0, 2 and 4.
struct TwoJobs;

impl RowName for TwoJobs {
    ghost use Rattle.xg_rowcore.specs.Names.{no_table};
    ghost use Rattle.xg_rows_tests.specs.Twofold.{twofold, twofold_is_small};

    ghost jobs = { 2 };

    ghost rows = { 3 };

    ghost amount = { twofold };

    ghost table = { no_table };

    ghost small = { twofold_is_small };
}

fn fill(packet: &mut Packet, job: u32)
    requires job { job < 2 }
    requires room { packet.old.entries.room ≡ 2 }
    ensures job { packet.new.job ≡ job }
    ensures room { packet.new.entries.room ≡ 2 }
    ensures packet { IsPacketOf twofold 3 job packet.new.entries.list }
{
    packet.start(job);
    packet.push(1, (job + 1) as i128);
    packet.push(2, (2 * (job + 1)) as i128);
}

fn add_in_any_order(
    rt: &impl Abort,
    packet: &mut Packet,
    even: &mut Stripe<TwoJobs>,
    odd: &mut Stripe<TwoJobs>,
)
    requires room { packet.old.entries.room ≡ 2 }
    requires even { even.old ≡ record { index = 0; stripes = 2; order = [] } }
    requires odd { odd.old ≡ record { index = 1; stripes = 2; order = [] } }
{
    fill(packet, 1);
    assert!(rt; packet.room() == 2 && packet.len() == 2 && packet.entry(1) == (2, 4));
    even.add(packet);
    odd.add(packet);
    assert!(rt;
        even.has(1)
            && !even.has(0)
            && even.jobs_added() == 1
            && even.total(0) == 0
            && even.total(1) == 4
            && odd.total(0) == 2
    );
    fill(packet, 0);
    even.add(packet);
    assert!(rt;
        even.total(1) == 6
            && odd.total(0) == 2
            && !odd.has(0)
            && odd.index() == 1
            && odd.stripes() == 2
    );
}

/// The stripes of the even and of the odd rows.
#[derive(Drop)]
struct Stripes {
    even: Stripe<TwoJobs>,
    odd: Stripe<TwoJobs>,
}

fn new_stripes(alloc: Global) -> Result<Stripes, AllocError>
    ensures even { IfOk result (λ all. all.even ≡ record { index = 0; stripes = 2; order = [] }) }
    ensures odd { IfOk result (λ all. all.odd ≡ record { index = 1; stripes = 2; order = [] }) }
{
    let even = Stripe::<TwoJobs>::new(alloc, 0, 2, 3, 2)?;
    match Stripe::<TwoJobs>::new(alloc, 1, 2, 3, 2) {
        Ok(odd) => Ok(Stripes { even, odd }),
        Err(error) => {
            drop(even);
            Err(error)
        }
    }
}

#[test]
fn jobs_come_in_any_order(rt: HostRuntime) -> Result<(), Fail> {
    let mut packet = Packet::new(rt.alloc(), 2)?;
    let mut stripes = new_stripes(rt.alloc())?;
    add_in_any_order(&rt, &mut packet, &mut stripes.even, &mut stripes.odd);
    drop(stripes);
    Ok(())
}

fn add_grouped(
    rt: &impl Abort,
    packet: &mut Packet,
    even: &mut Stripe<TwoJobs>,
    odd: &mut Stripe<TwoJobs>,
)
    requires room { packet.old.entries.room ≡ 2 }
    requires even { even.old ≡ record { index = 0; stripes = 2; order = [] } }
    requires odd { odd.old ≡ record { index = 1; stripes = 2; order = [] } }
{
    fill(packet, 1);
    packet.group(2);
    assert!(rt; packet.job == 1 && packet.len() == 2 && packet.entry(1) == (2, 4));
    even.add(packet);
    // stripes of another number are still found
    packet.group(3);
    odd.add(packet);
    assert!(rt; even.total(0) == 0 && even.total(1) == 4 && odd.total(0) == 2);
}

#[test]
fn grouped_packets_add_the_same(rt: HostRuntime) -> Result<(), Fail> {
    let mut packet = Packet::new(rt.alloc(), 2)?;
    let mut stripes = new_stripes(rt.alloc())?;
    add_grouped(&rt, &mut packet, &mut stripes.even, &mut stripes.odd);
    drop(stripes);
    Ok(())
}

// An amount at each border of 64 bits, and past it.
fn assert_amounts(rt: &impl Abort, packet: &mut Packet)
    requires room { packet.old.entries.room ≡ 2 }
{
    packet.start(0);
    packet.push(1, i64::MAX as i128);
    packet.push(2, i64::MIN as i128);
    assert!(rt; packet.entry(0) == (1, (1 << 63) - 1) && packet.entry(1) == (2, -1 << 63));
    packet.add(0, 1);
    assert!(rt; packet.entry(0) == (1, 1 << 63) && packet.entry(1) == (2, -1 << 63));
    packet.put(1, (-1 << 63) - 1);
    packet.add(0, -2);
    assert!(rt; packet.entry(0) == (1, (1 << 63) - 2) && packet.entry(1) == (2, (-1 << 63) - 1));
    packet.start(1);
    packet.push(3, 5);
    assert!(rt; packet.len() == 1 && packet.entry(0) == (3, 5));
    packet.push(4, 1 << 100);
    assert!(rt; packet.entry(0) == (3, 5) && packet.entry(1) == (4, 1 << 100));
}

#[test]
fn packets_keep_amounts_of_any_size(rt: HostRuntime) -> Result<(), Fail> {
    let mut packet = Packet::new(rt.alloc(), 2)?;
    assert_amounts(&rt, &mut packet);
    Ok(())
}

fn assert_linked(rt: &impl Abort, packet: &mut Packet, rows: &LinkedRows)
    requires rows { rows.now ≡ 1 ∷ 4 ∷ [] }
    requires room { packet.old.entries.room ≡ 2 }
{
    packet.start(0);
    packet.push(3, 1 << 100);
    packet.start_with(7, rows);
    assert!(rt; packet.job == 7 && packet.len() == 2);
    assert!(rt; packet.entry(0) == (1, 0) && packet.entry(1) == (4, 0));
    packet.put(1, 9);
    assert!(rt; packet.entry(0) == (1, 0) && packet.entry(1) == (4, 9));
}

#[test]
fn packets_take_linked_rows(rt: HostRuntime) -> Result<(), Fail> {
    let mut rows = Vec::new(rt.alloc());
    rows.push(1)?;
    rows.push(4)?;
    let linked = LinkedRows::new(rt.alloc(), rows)?;
    let mut packet = Packet::new(rt.alloc(), 2)?;
    assert_linked(&rt, &mut packet, &linked);
    Ok(())
}

fn crosses_threads<T: Send + Sync>() {}

#[test]
fn packets_and_stripes_cross_threads(_rt: HostRuntime) -> Result<(), Fail> {
    crosses_threads::<LinkedRows>();
    crosses_threads::<Packet>();
    crosses_threads::<Stripe<TwoJobs>>();
    Ok(())
}
