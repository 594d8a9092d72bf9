// The values that an answer keeps.
ghost use Rattle.growth.specs.Growth.{WasRefused};
ghost use Rattle.std.specs.Prelude.{◌≡◌, ◌++◌, OnErr, OnOk};
ghost use Rattle.std.specs.Fmt.{decimal};
ghost use Rattle.report_text.specs.Details.{algs_digits, record_fault_number, fault_place, caps_text, mac_text, details_text};

use crate::appended::{add, add_number, add_octets};
use alg_choice::{Algs, Caps, Eea};
use lte_events::Answer;
use rec_base::RecFault;
use std::alloc::{AllocError, Global};

pub(crate) fn add_details(
    alloc: Global,
    text: &mut Vec<u8>,
    answer: &Answer,
) -> Result<(), AllocError>
    ensures added { OnOk result (text.new.items ≡ text.old.items ++ details_text answer.now) }
    ensures refused { OnErr result WasRefused }
{
    match *answer {
        Answer::WrongKsi(held, got) => add_two(text, " held=", held.into(), " got=", got.into()),
        Answer::CapsMismatch(own, got) => add_caps(alloc, text, own, got),
        Answer::AlgUnsupported(algs) => {
            add(text, " algs=")?;
            add(text, algs_digits(algs))
        }
        Answer::MacFails(count, wanted, got) => add_macs(alloc, text, count, wanted, got),
        Answer::BadRecord(fault) => {
            let (number, place) = (record_fault_number(fault), fault_place(fault));
            add_two(text, " fault=", number.into(), " place=", place.into())
        }
        Answer::BadHeader(value) => add_octets(alloc, text, " octet=", &[value]),
        Answer::WrongKind(kind) => add_octets(alloc, text, " kind=", &[kind]),
        Answer::Stale(outstanding, got) => add_two(
            text,
            " outstanding=",
            outstanding,
            " got=",
            got,
        ),
        Answer::OldConnection(held, got) => add_two(text, " held=", held, " got=", got),
        Answer::AttemptOpen(value) => add_number(text, " number=", value),
        Answer::Repeated(seen, got) => add_two(text, " seen=", seen, " got=", got),
        Answer::Sent(record) => add_number(text, " record=", record),
        Answer::RepeatedRoot(row) => add_number(text, " row=", row),
        Answer::Done
        | Answer::NoContext
        | Answer::CountSpent
        | Answer::SmcOpen
        | Answer::NoAlgorithm
        | Answer::Short
        | Answer::NotConnected
        | Answer::NotAddressed
        | Answer::NothingToResend
        | Answer::AlreadyConnected
        | Answer::NoUe
        | Answer::NotActive
        | Answer::UnknownCell
        | Answer::NoPathSwitch
        | Answer::NoAttempt
        | Answer::CommandSent
        | Answer::PrepFull
        | Answer::NotReady
        | Answer::NumberSpent
        | Answer::NoTrigger
        | Answer::NoSmc
        | Answer::NoRecord => Ok(()),
    }
}

// Two numbers, each behind its name.
fn add_two(
    text: &mut Vec<u8>,
    first_name: &str,
    first: u32,
    second_name: &str,
    second: u32,
) -> Result<(), AllocError>
    ensures added { OnOk result (text.new.items
        ≡ text.old.items ++ (first_name.now ++ (decimal first ++ (second_name.now ++ decimal second)))) }
    ensures refused { OnErr result WasRefused }
{
    add_number(text, first_name, first)?;
    add_number(text, second_name, second)
}

#[tactic(auto, unfolding(crate::specs::Details::caps_text))]
fn add_caps(alloc: Global, text: &mut Vec<u8>, own: Caps, got: Caps) -> Result<(), AllocError>
    ensures added { OnOk result (text.new.items ≡ text.old.items ++ caps_text own got) }
    ensures refused { OnErr result WasRefused }
{
    add_octets(alloc, text, " own=", &[own.eea, own.eia])?;
    add_octets(alloc, text, " got=", &[got.eea, got.eia])
}

#[tactic(auto, unfolding(crate::specs::Details::mac_text))]
fn add_macs(
    alloc: Global,
    text: &mut Vec<u8>,
    count: u32,
    wanted: [u8; 4],
    got: [u8; 4],
) -> Result<(), AllocError>
    ensures added { OnOk result (text.new.items ≡ text.old.items ++ mac_text count wanted got) }
    ensures refused { OnErr result WasRefused }
{
    add_number(text, " count=", count)?;
    add_octets(alloc, text, " wanted=", &wanted)?;
    add_octets(alloc, text, " got=", &got)
}

// The octet of the algorithms in a record.
fn algs_digits(algs: Algs) -> &'static str
    ensures { result.now ≡ algs_digits algs }
{
    match algs.eea {
        Eea::Eea0 => "02",
        Eea::Eea2 => "22",
    }
}

fn record_fault_number(fault: RecFault) -> u8
    ensures { result ≡ record_fault_number fault }
{
    match fault {
        RecFault::Short => 1,
        RecFault::Long => 2,
        RecFault::BadKind => 3,
        RecFault::BadField(_) => 4,
    }
}

fn fault_place(fault: RecFault) -> u8
    ensures { result ≡ fault_place fault }
{
    match fault {
        RecFault::BadField(place) => place,
        RecFault::Short | RecFault::Long | RecFault::BadKind => 0,
    }
}
