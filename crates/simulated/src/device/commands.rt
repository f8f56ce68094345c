ghost use Rattle.std.specs.Prelude.{◌≡◌, ◌+◌, min, false, if◌then◌else◌};
ghost use Rattle.line.specs.Rules.{after, answer, byte, done, restarted, took, says};
ghost use Rattle.line.specs.declared.command.Command.TheVariants.{Read, Write, Start, Acknowledge, TerminalId, Reset};
ghost use Rattle.simulated.specs.Simulated.{state_of, device_of, obliging, sees_request};

use crate::device::{RESTARTED, SimulatedDevice};
use line::command::PollAnswer;
use line::row::row_after;
use line::telling::Registers;
use tca::field::CUSYN;
use tca::request::REQUEST_PLACES;

impl SimulatedDevice {
    fn count(&mut self, answered: bool)
        ensures { state_of self.new ≡ record (state_of self.old) { row = (if answered then 0 else min 255 ((state_of self.old).row + 1)) } }
    {
        self.registers.row = row_after(self.registers.row, answered);
    }

    pub fn read(&mut self, address: u16) -> Option<u8>
        ensures after { state_of self.new ≡ after (Read address) obliging (state_of self.old) }
        ensures value { byte result ≡ answer (Read address) obliging (state_of self.old) }
    {
        let answer = self.memory.get(address);
        self.count(answer.is_some());
        answer
    }

    pub fn write(&mut self, address: u16, value: u8) -> bool
        ensures after { state_of self.new ≡ after (Write address value) obliging (state_of self.old) }
        ensures value { done result ≡ answer (Write address value) obliging (state_of self.old) }
    {
        let heard = self.memory.hear(address, value);
        self.count(heard);
        heard
    }

    pub fn acknowledge(&mut self) -> bool
        ensures after { state_of self.new ≡ after Acknowledge obliging (state_of self.old) }
        ensures value { done result ≡ answer Acknowledge obliging (state_of self.old) }
    {
        self.registers.waiting = false;
        self.registers.row = 0;
        true
    }

    pub fn terminal_id(&mut self) -> bool
        ensures after { state_of self.new ≡ after TerminalId obliging (state_of self.old) }
        ensures value { done result ≡ answer TerminalId obliging (state_of self.old) }
    {
        self.registers.row = 0;
        true
    }

    // What an answered Poll says.
    fn says(&self) -> PollAnswer
        ensures { result ≡ says (device_of self.now) }
    {
        if self.registers.waiting {
            PollAnswer::Reset
        } else if self.memory.has_zero_toggles() {
            PollAnswer::Clean
        } else {
            PollAnswer::Status
        }
    }

    // The answer to a Poll, once the device's program has acted.
    pub fn answer_poll(&mut self) -> PollAnswer
        ensures after { state_of self.new ≡ record { device = device_of self.old; row = 0 } }
        ensures value { result ≡ says (device_of self.old) }
    {
        self.registers.row = 0;
        self.says()
    }

    #[tactic(auto, using(crate::proofs::Zeros::zeros_remade))]
    fn restart(&mut self)
        ensures { state_of self.new ≡ record (state_of self.old) { device = restarted obliging (device_of self.old) } }
    {
        self.memory.clear();
        self.registers = Registers {
            last: self.registers.last,
            row: self.registers.row,
            ..RESTARTED
        };
    }

    pub fn reset(&mut self) -> bool
        ensures after { state_of self.new ≡ after Reset obliging (state_of self.old) }
        ensures value { done result ≡ answer Reset obliging (state_of self.old) }
    {
        self.restart();
        self.registers.row = 0;
        true
    }

    // Whether a Start now is more than a repeat: no restart waits, and CUSYN is not the value seen.
    fn sees_request(&self) -> bool
        ensures { result ≡ sees_request (device_of self.now) }
    {
        !self.registers.waiting && self.memory.byte(CUSYN.address) != self.registers.seen
    }

    // The request that stands in memory is taken.
    fn take(&mut self)
        requires { self.old.registers.waiting ≡ false }
        ensures { state_of self.new ≡ record (state_of self.old) { device = took (device_of self.old) } }
    {
        self.registers.last = REQUEST_PLACES.map(|place| self.memory.byte(place));
        self.registers.seen = self.memory.byte(CUSYN.address);
        self.registers.taken = self.registers.taken.wrapping_add(1);
        self.registers.working = true;
    }

    #[tactic(auto, unfolding(line::specs::Rules::started))]
    pub fn start(&mut self) -> bool
        ensures after { state_of self.new ≡ after Start obliging (state_of self.old) }
        ensures value { done result ≡ answer Start obliging (state_of self.old) }
    {
        self.registers.row = 0;
        if self.sees_request() {
            if self.registers.working {
                self.restart();
            } else {
                self.take();
            }
        }
        true
    }
}
