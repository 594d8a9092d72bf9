// Writing the reply of an actor.
ghost use Rattle.std.specs.Prelude.{◌≡◌, ◌+◌, ◌≤◌, [], ◌∷◌, ◌++◌, length};
ghost use Rattle.rec_base.specs.BigEndian.{octets_of};
ghost use Rattle.rec_base.specs.Bearer.{octet_of};
ghost use Rattle.lte_events.specs.Reply.{reply_of};
ghost use Rattle.lte_events.specs.declared.answers.Answer.TheVariants.{Done};
ghost use Rattle.role_wire.specs.Reply.{fault_octets, details_octets, answer_octets, address_octets, sent_octets, opened_octets, derived_octets, way_octet, note_octets, reply_spelling};

use crate::Frame;
use crate::writing::{Body, framed};
use annex_a_keys::Derived;
use lte_events::{ActorOut, Address, Answer, KeyNote, Record};
use rec_base::{Bearer, Bounded, RecFault, UserText, Way};
use rec_fields::{algs_octet, list_of, put_u16, put_u32};

/// The frame of a reply of an actor: kind 80; the number of the answer; the values that it keeps,
/// after their length; the record sent, with its address; the text opened; the outputs of the
/// derivations, after their count; what is told of a key; the alarm. The three answers that only the
/// network gives, 50 to 52, keep no values here.
pub fn reply_frame(reply: &ActorOut) -> Frame
    ensures { result ≡ reply_spelling reply.now }
{
    let mut out = answer_body(&reply.answer);
    put_sent(&mut out, &reply.sent);
    put_opened(&mut out, &reply.opened);
    put_derived(&mut out, reply.derived.as_slice());
    put_note(&mut out, &reply.note);
    out.append(&[u8::from(reply.alarm)]);
    framed(&out)
}

/// The reply to a Setup: that of an actor that is done, and tells nothing else.
pub fn setup_reply() -> Frame
    ensures value { result ≡ reply_spelling (reply_of Done) }
    ensures octets { result ≡ 0x00 ∷ 0x08 ∷ 0x80 ∷ 0x00 ∷ 0x00 ∷ 0x00 ∷ 0x00 ∷ 0x00 ∷ 0x00 ∷ 0x00 ∷ [] }
{
    reply_frame(&ActorOut::of(Answer::Done))
}

// The kind of a reply, the answer, and the values that it keeps behind their length.
fn answer_body(answer: &Answer) -> Body
    ensures octets { result ≡ 0x80 ∷ answer_octets answer.now }
    ensures count { length result ≤ 15 }
{
    let details = details_of(answer);
    let mut out = list_of(&[0x80, answer.number(), details.as_slice().len() as u8]);
    out.append(details.as_slice());
    out
}

// The values that an answer keeps.
fn details_of(answer: &Answer) -> Bounded<12>
    ensures { result ≡ details_octets answer.now }
{
    match answer {
        Answer::WrongKsi(held, got) => list_of(&[*held, *got]),
        Answer::CapsMismatch(own, got) => list_of(&[own.eea, own.eia, got.eea, got.eia]),
        Answer::AlgUnsupported(algs) => list_of(&[algs_octet(algs)]),
        Answer::MacFails(count, wanted, got) => {
            let mut out = number(*count);
            out.append(wanted);
            out.append(got);
            out
        }
        Answer::BadRecord(fault) => fault_of(fault),
        Answer::BadHeader(octet) => list_of(&[*octet]),
        Answer::WrongKind(kind) => list_of(&[*kind]),
        Answer::Stale(outstanding, got) => numbers(*outstanding, *got),
        Answer::OldConnection(held, got) => numbers(*held, *got),
        Answer::AttemptOpen(n) => number(*n),
        Answer::Repeated(seen, got) => numbers(*seen, *got),
        _ => Bounded::new(),
    }
}

// One number.
fn number(n: u32) -> Bounded<12>
    ensures octets { result ≡ octets_of 4 n }
    ensures count { length result ≡ 4 }
{
    let mut out = Bounded::new();
    put_u32(&mut out, n);
    out
}

// Two numbers.
fn numbers(first: u32, second: u32) -> Bounded<12>
    ensures { result ≡ octets_of 4 first ++ octets_of 4 second }
{
    let mut out = number(first);
    put_u32(&mut out, second);
    out
}

// The number of a record's fault, and the place of a field.
fn fault_of(fault: &RecFault) -> Bounded<12>
    ensures { result ≡ fault_octets fault.now }
{
    match fault {
        RecFault::Short => list_of(&[1, 0]),
        RecFault::Long => list_of(&[2, 0]),
        RecFault::BadKind => list_of(&[3, 0]),
        RecFault::BadField(place) => list_of(&[4, *place]),
    }
}

// Appends the record sent.
fn put_sent(out: &mut Body, sent: &Option<Record>)
    requires { length out.old ≤ 15 }
    ensures octets { out.new ≡ out.old ++ sent_octets sent.now }
    ensures count { length out.new ≤ length out.old + 1546 }
{
    match sent {
        None => out.append(&[0x00]),
        Some(record) => {
            let octets = record.octets.as_slice();
            out.append(&[0x01]);
            put_address(out, &record.to);
            put_u16(out, octets.len() as u16);
            out.append(octets);
        }
    }
}

// Appends where a record goes.
fn put_address(out: &mut Body, to: &Address)
    requires { length out.old ≤ 16 }
    ensures octets { out.new ≡ out.old ++ address_octets to.now }
    ensures count { length out.new ≤ length out.old + 7 }
{
    match to {
        Address::Phone(station, air, bearer) => put_air(out, 0x00, *station, *air, *bearer),
        Address::PhoneNas => out.append(&[0x01]),
        Address::CoreNas => out.append(&[0x02]),
        Address::CoreS1 => out.append(&[0x03]),
        Address::StationAir(station, air, bearer) => put_air(out, 0x04, *station, *air, *bearer),
        Address::StationS1(station) => out.append(&[0x05, *station]),
        Address::StationX2(station) => out.append(&[0x06, *station]),
    }
}

// Appends an address on the radio interface behind its tag.
fn put_air(out: &mut Body, tag: u8, station: u8, air: u32, bearer: Bearer)
    requires { length out.old ≤ 16 }
    ensures octets { out.new ≡ out.old ++ tag ∷ station ∷ octets_of 4 air ++ octet_of bearer ∷ [] }
    ensures count { length out.new ≡ length out.old + 7 }
{
    out.append(&[tag, station]);
    put_u32(out, air);
    out.append(&[bearer.octet()]);
}

// Appends the text opened.
fn put_opened(out: &mut Body, opened: &Option<UserText>)
    requires { length out.old ≤ 1561 }
    ensures octets { out.new ≡ out.old ++ opened_octets opened.now }
    ensures count { length out.new ≤ length out.old + 1503 }
{
    match opened {
        None => out.append(&[0x00]),
        Some(text) => {
            let octets = text.as_slice();
            out.append(&[0x01]);
            put_u16(out, octets.len() as u16);
            out.append(octets);
        }
    }
}

// Appends the outputs of the derivations behind their count.
fn put_derived(out: &mut Body, derived: &[Derived])
    requires room { length out.old ≤ 3064 }
    requires few { length derived.now ≤ 12 }
    ensures octets { out.new ≡ out.old ++ derived_octets derived.now }
    ensures count { length out.new ≤ length out.old + 385 }
{
    out.append(&[derived.len() as u8]);
    for made in derived {
        out.append(&made.out);
    }
}

// Appends what is told of a key.
fn put_note(out: &mut Body, note: &Option<KeyNote>)
    requires { length out.old ≤ 3449 }
    ensures octets { out.new ≡ out.old ++ note_octets note.now }
    ensures count { length out.new ≤ length out.old + 35 }
{
    match note {
        None => out.append(&[0x00]),
        Some(note) => {
            out.append(&[0x01, note.ncc, way_octet(note.way)]);
            out.append(&note.key);
        }
    }
}

// The number of a way.
fn way_octet(way: Way) -> u8
    ensures { result ≡ way_octet way }
{
    match way {
        Way::Initial => 0,
        Way::Horizontal => 1,
        Way::Vertical => 2,
        Way::Given => 3,
        Way::Completed => 4,
        Way::Chained => 5,
    }
}
