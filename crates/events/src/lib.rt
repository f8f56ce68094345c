// Which events of a device are allowed, and what each changes.
#![tactic(auto)]

ghost use Rattle.std.specs.Prelude.{◌≡◌};
ghost use Rattle.ports.specs.Events.{judge as judged};
ghost use Rattle.ports.specs.Terminals.{only_terminals};

use codes::attachment::Attachment;
use ports::verdict::Verdict;
use tca::request::NO_TERMINAL;
use tca::status::Event;
use terminals::Terminals;

// The bits of a set that stand for no terminal are zero.
fn only_terminals(set: u8) -> bool
    ensures { result ≡ only_terminals set }
{
    set & 0x07 == 0
}

// By what the unit is made for, the port's addresses and which of its terminals are online.
pub fn judge(attachment: Attachment, terminals: Terminals, event: Event) -> Verdict
    ensures { result ≡ judged attachment terminals.addresses terminals.online event }
{
    let Event {
        daev,
        daep,
        daep2,
        daep3,
        daltad,
        ..
    } = event;
    let allowed = Verdict::Allowed(terminals.online);
    // By bytes: the interface gives events no names, and these arms are the lines of its table.
    match (daev, daep) {
        // an error report, which names a terminal if it is of one, and is permanent or not
        (0x20, 1 | 4) if daep3 & 0x0f == 0 && daltad == NO_TERMINAL => allowed,
        (0x20, 2) if daep3 & 0x0f == 0 && daltad == NO_TERMINAL => Verdict::PermanentError,
        (0x20, 3) if daep3 & 0x0f == 0 && terminals.is_configured(daltad) => allowed,
        (0x22, _) if terminals.is_online(daltad) => allowed,
        (0x24 | 0x32, _) if terminals.online == 0 => allowed,
        (0x26, 1 | 2) if attachment != Attachment::Sna && daep2 != 0 && only_terminals(daep2) =>
            allowed,
        // terminals go online, or all go offline
        (0x28, 1) if daep2 != 0 && only_terminals(daep2) && terminals.all_configured(daep2) => {
            Verdict::Allowed(terminals.online | daep2)
        }
        (0x28, 2) if daep2 == 0 && terminals.online != 0 => Verdict::Allowed(0),
        (0x2a, _) if attachment == Attachment::Sna => allowed,
        (0x2c | 0x2e | 0x30 | 0x34, _) => allowed,
        _ => Verdict::NotAllowed,
    }
}
