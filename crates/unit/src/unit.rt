// The unit and its calls.
ghost use Rattle.std.specs.Prelude.{◌≡◌, ◌<◌, ◌≤◌, length, MatchResult};
ghost use Rattle.line.specs.State.{State};
ghost use Rattle.ports.specs.Asked.{configure as to_configure, attach as to_attach, poll as to_poll, request as to_request, collect as to_collect, take as to_take, expedite as to_expedite, fetch as to_fetch, drop as to_drop};
ghost use Rattle.ports.specs.Frame.{Called};
ghost use Rattle.ports.specs.Turn.{turn as whose_turn, named_last};
ghost use Rattle.unit.specs.Units.{new_unit, beside, with_last, record_at, Serves};

use codes::attachment::Attachment;
use codes::number::Refusal;
use line::Line;
use ports::answers::{AttachFailure, Failure, Handed};
use ports::disconnection::Disconnection;
use ports::port::{Marks, Port};
use ports::table::Table;
use tca::request::Request;
use tca::status::{ExpeditedStatus, SynchronousStatus};

// Made for one attachment to the host.
#[derive(Drop)]
pub struct Unit {
    attachment: Attachment,
    table: Table,
}

impl Unit {
    pub fn new(attachment: Attachment) -> Unit
        ensures { result ≡ new_unit attachment }
    {
        Unit {
            attachment,
            table: Table::new(),
        }
    }

    // How many ports there are, which an index has to stay below. Asked of a slice, since a proof learns the list's
    // length only there.
    pub fn size(&self) -> usize
        ensures value { result ≡ 32 }
        ensures ports { result ≡ length self.now.table.ports }
    {
        let ports: &[Port] = &self.table.ports;
        ports.len()
    }

    // Where a port's record stands: at its number, where there is such a port.
    fn index(&self, port: u8) -> Result<usize, Refusal>
        ensures { let ports = length self.now.table.ports in
            MatchResult result (λ i. (i ≡ port) × (i < ports)) (λ n. (n ≡ Refusal.PortTooHigh) × (ports ≤ port)) }
    {
        let index = usize::from(port);
        if index < self.size() {
            Ok(index)
        } else {
            Err(Refusal::PortTooHigh)
        }
    }

    pub fn configure(&mut self, port: u8, terminals: [u8; 5]) -> Result<(), Refusal>
        ensures outcome { (t : State) → Called self.old.attachment port (to_configure terminals) self.old.table.ports t result self.new.table.ports t }
        ensures kept { beside self.new ≡ beside self.old }
    {
        let index = self.index(port)?;
        calls::connecting::configure(&mut self.table.ports[index], terminals)
    }

    pub fn attach<L: Line>(&mut self, port: u8, line: &mut L) -> Result<(), AttachFailure>
        ensures { Serves L.Line.step L.Line.state port to_attach self.old line.old result self.new line.new }
    {
        let index = self.index(port)?;
        calls::connecting::attach(&mut self.table.ports[index], line)
    }

    // Which port is served next; none where no port is in service.
    pub fn turn(&mut self) -> Option<u8>
        ensures value { result ≡ whose_turn self.old.table.ports self.old.table.last }
        ensures after { self.new ≡ with_last (named_last result self.old.table.last) self.old }
    {
        turning::turn(&mut self.table)
    }

    // The record of a port, for programs that show it.
    pub fn record(&self, port: u8) -> Option<Port>
        ensures { result ≡ record_at self.now.table.ports port }
    {
        self.table.ports.get(usize::from(port)).copied()
    }

    pub fn poll<L: Line>(&mut self, port: u8, line: &mut L) -> Result<Marks, Failure>
        ensures { Serves L.Line.step L.Line.state port to_poll self.old line.old result self.new line.new }
    {
        let index = self.index(port)?;
        calls::polling::poll(&mut self.table.ports[index], line)
    }

    pub fn request<L: Line>(
        &mut self,
        port: u8,
        line: &mut L,
        request: Request,
        data: &[u8],
    ) -> Result<(), Failure>
        ensures { Serves L.Line.step L.Line.state port (to_request request «data».now) self.old line.old result self.new line.new }
    {
        let index = self.index(port)?;
        requesting::request(&mut self.table.ports[index], line, request, data)
    }

    pub fn collect<L: Line>(&mut self, port: u8, line: &mut L) -> Result<SynchronousStatus, Failure>
        ensures { Serves L.Line.step L.Line.state port to_collect self.old line.old result self.new line.new }
    {
        let index = self.index(port)?;
        calls::statuses::collect(&mut self.table.ports[index], line)
    }

    pub fn take<L: Line>(&mut self, port: u8, line: &mut L) -> Result<Handed, Failure>
        ensures { Serves L.Line.step L.Line.state port to_take self.old line.old result self.new line.new }
    {
        let index = self.index(port)?;
        calls::statuses::take(&mut self.table.ports[index], line, self.attachment)
    }

    pub fn expedite<L: Line>(
        &mut self,
        port: u8,
        line: &mut L,
        response: [u8; 4],
    ) -> Result<ExpeditedStatus, Failure>
        ensures { Serves L.Line.step L.Line.state port (to_expedite response) self.old line.old result self.new line.new }
    {
        let index = self.index(port)?;
        calls::statuses::expedite(&mut self.table.ports[index], line, response)
    }

    // The buffer after it is told with the answer.
    pub fn fetch<L: Line>(
        &mut self,
        port: u8,
        line: &mut L,
        address: u16,
        count: usize,
        buffer: &mut [u8],
    ) -> Result<(), Failure>
        ensures { Serves L.Line.step L.Line.state port (to_fetch address count buffer.old) self.old line.old (result, buffer.new) self.new line.new }
    {
        let index = self.index(port)?;
        fetching::fetch(&mut self.table.ports[index], line, address, count, buffer)
    }

    pub fn drop<L: Line>(&mut self, port: u8, line: &mut L) -> Result<Disconnection, Refusal>
        ensures { Serves L.Line.step L.Line.state port to_drop self.old line.old result self.new line.new }
    {
        let index = self.index(port)?;
        calls::connecting::drop(&mut self.table.ports[index], line)
    }
}
