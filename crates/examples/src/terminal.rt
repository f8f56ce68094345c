use line::Line;
use line::command::PollAnswer;
use line::tellable::Tellable;
use line::telling::Tells;
use lines::terminal::Terminal;
use std::process::Abort;
use std::test::*;
use tca::field::{CUSYN, DAEV, DPASTAT, DPSSTAT};
use tca::status::{Event, SynchronousStatus};

// A terminal whose restart is acknowledged.
fn awake(rt: &(impl Abort + AllocGlobal)) -> Result<Terminal, Fail> {
    let mut terminal = Terminal::new(rt.alloc())?;
    assert!(rt; terminal.poll() == Some(PollAnswer::Reset));
    assert!(rt; terminal.acknowledge());
    assert!(rt; terminal.poll() == Some(PollAnswer::Clean));
    Ok(terminal)
}

// The same, with a request started by a first value of CUSYN.
fn working(rt: &(impl Abort + AllocGlobal)) -> Result<Terminal, Fail> {
    let mut terminal = awake(rt)?;
    assert!(rt; terminal.write(CUSYN.address, 1));
    assert!(rt; terminal.start());
    assert!(rt; terminal.telling().registers.taken == 1);
    Ok(terminal)
}

#[test]
fn same_cusyn_twice_is_taken_once(rt: HostRuntime) -> Result<(), Fail> {
    let mut terminal = working(&rt)?;
    assert!(rt; terminal.start());
    assert!(rt; terminal.telling().registers.taken == 1 && terminal.telling().registers.working);
    Ok(())
}

#[test]
fn start_while_working_restarts(rt: HostRuntime) -> Result<(), Fail> {
    let mut terminal = working(&rt)?;
    assert!(rt; terminal.write(CUSYN.address, 0));
    assert!(rt; terminal.start());
    assert!(rt; terminal.telling().registers.waiting && terminal.telling().registers.taken == 0);
    assert!(rt; terminal.poll() == Some(PollAnswer::Reset));
    Ok(())
}

#[test]
fn write_is_heard_in_the_units_half(rt: HostRuntime) -> Result<(), Fail> {
    let mut terminal = awake(&rt)?;
    assert!(rt; terminal.write(0x0045, 7));
    assert!(rt; terminal.read(0x0045) == Some(7));
    assert!(rt; !terminal.write(DAEV.address, 7) && terminal.telling().registers.row == 1);
    assert!(rt; terminal.read(0x0007) == Some(0) && terminal.telling().registers.row == 0);
    Ok(())
}

#[test]
fn read_is_answered_below_the_end(rt: HostRuntime) -> Result<(), Fail> {
    let mut terminal = awake(&rt)?;
    assert!(rt; terminal.size() == 256);
    assert!(rt; terminal.read(255) == Some(0));
    assert!(rt; terminal.read(256) == None);
    Ok(())
}

#[test]
fn toggle_is_cleared_by_zero_and_not_set_by_one(rt: HostRuntime) -> Result<(), Fail> {
    let mut terminal = awake(&rt)?;
    terminal.tell_event(Event {
        daev: 0x2c,
        daep: 0,
        daep2: 0,
        daep3: 0,
        daep4: 0,
        daltad: 0xff,
    });
    assert!(rt; !terminal.write(DPASTAT.address, 1));
    assert!(rt; terminal.poll() == Some(PollAnswer::Status));
    assert!(rt;
        terminal.read(DPASTAT.address) == Some(1) && terminal.read(DAEV.address) == Some(0x2c)
    );
    assert!(rt; terminal.write(DPASTAT.address, 0));
    assert!(rt; terminal.read(DPASTAT.address) == Some(0));
    assert!(rt; terminal.poll() == Some(PollAnswer::Clean));
    Ok(())
}

#[test]
fn end_is_posted_once_and_only_for_a_request(rt: HostRuntime) -> Result<(), Fail> {
    let mut terminal = awake(&rt)?;
    terminal.tell_end(SynchronousStatus {
        dssv: 1,
        dssp: 2,
        dssp2: 3,
        dssp3: 4,
    });
    assert!(rt; terminal.poll() == Some(PollAnswer::Clean));
    assert!(rt; terminal.write(CUSYN.address, 1) && terminal.start());
    assert!(rt;
        terminal.poll() == Some(PollAnswer::Status) && !terminal.telling().registers.working
    );
    assert!(rt; terminal.read(0x0002) == Some(1) && terminal.read(0x0005) == Some(4));
    assert!(rt; terminal.write(DPSSTAT.address, 0));
    assert!(rt; terminal.poll() == Some(PollAnswer::Clean));
    Ok(())
}
