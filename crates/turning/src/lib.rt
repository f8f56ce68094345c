// Which port is served next.
#![tactic(auto)]

ghost use Rattle.std.specs.Prelude.{◌≡◌, ◌&&◌, nat_lt};
ghost use Rattle.ports.specs.Turn.{turn as whose_turn, named_last, in_service, marked_expedited, lowest as lowest_of};
ghost use Rattle.turning.specs.Wanted.{FindsLowest, with_last};

use ports::port::Port;
use ports::table::Table;
use terminals::none_configured;

fn is_in_service(port: &Port) -> bool
    ensures { result ≡ in_service port.now }
{
    !none_configured(port.terminals)
}

fn is_marked_expedited(port: &Port) -> bool
    ensures { result ≡ marked_expedited port.now.connection }
{
    port.connection
        .is_some_and(|connection| connection.marks.expedited)
}

// The lowest port that a test of its number and its record wants.
fn lowest<F: Fn(u8, &Port) -> bool>(table: &Table, is_wanted: F) -> Option<u8>
    requires { F.IsAlwaysCallable is_wanted }
    ensures { FindsLowest F.Fn is_wanted table.now.ports result }
{
    (0..32u8)
        .zip(table.ports.iter())
        .find(|(number, port)| is_wanted(*number, port))
        .map(|(number, _)| number)
}

#[tactic(auto, using(crate::proofs::Searches::found_lowest))]
fn lowest_expedited(table: &Table) -> Option<u8>
    ensures { result ≡ lowest_of (λ n k. in_service k && marked_expedited k.connection) 0 table.now.ports }
{
    lowest(
        table,
        |_, port| is_in_service(port) && is_marked_expedited(port),
    )
}

#[tactic(auto, using(crate::proofs::Searches::found_lowest))]
fn lowest_after_last(table: &Table) -> Option<u8>
    ensures { result ≡ lowest_of (λ n k. in_service k && nat_lt table.now.last n) 0 table.now.ports }
{
    lowest(
        table,
        |number, port| is_in_service(port) && table.last < number,
    )
}

#[tactic(auto, using(crate::proofs::Searches::found_lowest))]
fn lowest_in_service(table: &Table) -> Option<u8>
    ensures { result ≡ lowest_of (λ n k. in_service k) 0 table.now.ports }
{
    lowest(table, |_, port| is_in_service(port))
}

// A port that is marked expedited, the lowest first; else the next after the one named last, going round.
fn next(table: &Table) -> Option<u8>
    ensures { result ≡ whose_turn table.now.ports table.now.last }
{
    lowest_expedited(table)
        .or_else(|| lowest_after_last(table))
        .or_else(|| lowest_in_service(table))
}

pub fn turn(table: &mut Table) -> Option<u8>
    ensures value { result ≡ whose_turn table.old.ports table.old.last }
    ensures after { table.new ≡ with_last (named_last result table.old.last) table.old }
{
    let named = next(table);
    table.last = named.unwrap_or(table.last);
    named
}
