// The words of the program.
ghost use Rattle.std.specs.Prelude.{◌≡◌, ◌<◌, ◌≤◌, Some, None, false, length, position, IfSome};
ghost use Rattle.std.specs.Option.{option_and_then, option_map};
ghost use Rattle.std.specs.String.{string_bytes};
ghost use Rattle.text_lines.specs.Words.{number_of};
ghost use Rattle.lte_variants.specs.Named.{one_more};
ghost use Rattle.lte_variants.specs.Request.{a_size, all, are_sets, fitting, is_of, is_packets, is_sent, is_slash, kind_of, most_faults, request_of, share_by, share_of, size_of, size_with, together_of, unlimited, with_named, with_share, with_step_or_share, with_word, with_words, words_with, IsRequest, IsShare};

use crate::kinds::Kinds;
use crate::named::Named;
use item_faults::Kind;
use text_lines::number;

/// A share of the variants, which so many shares take in turns.
#[derive(Clone, Copy)]
pub struct Share {
    /// Its number, counted from 1.
    pub number: u32,
    /// How many shares there are.
    pub parts: u32,
}

impl Share {
    ghost use Rattle.std.specs.Prelude.{◌≡◌, ◌+◌, ◌%◌, ◌==◌, ◌<◌};

    /// Whether it takes what stands at a place, modulo the number of shares.
    pub fn takes(self, place: u32) -> bool
        requires { place < self.parts }
        ensures { result ≡ (place + 1 == self.number) }
    {
        place + 1 == self.number
    }

    /// The next place.
    pub fn after(self, place: u32) -> u32
        requires { place < self.parts }
        ensures next { result ≡ (place + 1) % self.parts }
        ensures within { result < self.parts }
    {
        (place + 1) % self.parts
    }
}

/// What the program is asked to tell.
#[derive(Drop)]
pub struct Request {
    /// How many faults a variant has.
    pub faults: usize,
    /// Which of the variants.
    pub share: Share,
    /// Which kinds of faults happen.
    pub kinds: Kinds,
    /// To which messages alone they happen, if some are named.
    pub named: Option<Named>,
    /// Whether faults happen to user packets too.
    pub packets: bool,
    /// Whether it is told of each variant which station serves, and which of its lines sent.
    pub sent: bool,
}

/// The request that these words are, if they are one. It takes no memory.
pub fn request_of(words: &[String]) -> Option<Request>
    ensures value { result ≡ request_of words.now }
    ensures within { IfSome result IsRequest }
{
    match words {
        [word, others @ ..] => fitting(words_with(word, others)?),
        [] => None,
    }
}

#[tactic(auto, unfolding(crate::specs::Request::with_words))]
fn words_with(word: &String, others: &[String]) -> Option<Request>
    ensures value { result ≡ words_with (string_bytes word.now) others.now }
    ensures share { IfSome result (λ request. IsShare request.share) }
    ensures few { IfSome result (λ request. request.faults ≤ most_faults) }
{
    if are_sets(word) {
        return size_with(others);
    }
    match together_of(word) {
        Some(faults) => with_words(unlimited(faults), others),
        None => None,
    }
}

#[tactic(auto, unfolding(crate::specs::Request::with_words))]
fn size_with(words: &[String]) -> Option<Request>
    ensures value { result ≡ size_with words.now }
    ensures share { IfSome result (λ request. IsShare request.share) }
    ensures few { IfSome result (λ request. request.faults ≤ most_faults) }
{
    match words {
        [word, others @ ..] => match size_of(word.as_bytes()) {
            Some(faults) => with_words(unlimited(faults), others),
            None => None,
        },
        [] => None,
    }
}

fn fitting(request: Request) -> Option<Request>
    requires share { IsShare request.share }
    requires few { request.faults ≤ most_faults }
    ensures value { result ≡ fitting request }
    ensures within { IfSome result IsRequest }
{
    if 5 < request.faults && !request.named.is_some() {
        return None;
    }
    Some(request)
}

// All variants with so many faults.
fn unlimited(faults: usize) -> Request
    ensures { result ≡ unlimited faults }
{
    Request {
        faults,
        share: all(),
        kinds: Kinds {
            lost: false,
            late: false,
            twice: false,
            again: false,
        },
        named: None,
        packets: false,
        sent: false,
    }
}

#[tactic(auto, unfolding(crate::specs::Request::with_words))]
fn with_words(request: Request, words: &[String]) -> Option<Request>
    requires share { IsShare request.share }
    requires few { request.faults ≤ most_faults }
    ensures value { result ≡ with_words words.now (Some request) }
    ensures share { IfSome result (λ request. IsShare request.share) }
    ensures few { IfSome result (λ request. request.faults ≤ most_faults) }
{
    match words {
        [word, others @ ..] => match with_word(request, word) {
            Some(next) => with_words(next, others),
            None => None,
        },
        [] => Some(request),
    }
}

fn with_word(request: Request, word: &String) -> Option<Request>
    requires share { IsShare request.share }
    requires few { request.faults ≤ most_faults }
    ensures value { result ≡ with_word (string_bytes word.now) request }
    ensures share { IfSome result (λ request. IsShare request.share) }
    ensures few { IfSome result (λ request. request.faults ≤ most_faults) }
{
    if is_packets(word) {
        return Some(Request {
            packets: true,
            ..request
        });
    }
    if is_sent(word) {
        return Some(Request {
            sent: true,
            ..request
        });
    }
    if is_of(word) {
        return Some(Request {
            named: Some(Named::none()),
            ..request
        });
    }
    match kind_of(word) {
        Some(kind) => Some(Request {
            kinds: request.kinds.with(kind),
            ..request
        }),
        None => with_step_or_share(request, word.as_bytes()),
    }
}

fn with_step_or_share(request: Request, word: &[u8]) -> Option<Request>
    requires share { IsShare request.share }
    requires few { request.faults ≤ most_faults }
    ensures value { result ≡ with_step_or_share word.now request (number_of word.now) }
    ensures share { IfSome result (λ request. IsShare request.share) }
    ensures few { IfSome result (λ request. request.faults ≤ most_faults) }
{
    match number(word) {
        Some(step) => with_step(request, step),
        None => with_share(request, share_of(word)),
    }
}

fn with_step(request: Request, step: u32) -> Option<Request>
    requires share { IsShare request.share }
    requires few { request.faults ≤ most_faults }
    ensures value { result ≡ with_named request (option_and_then (one_more step) request.named) }
    ensures share { IfSome result (λ request. IsShare request.share) }
    ensures few { IfSome result (λ request. request.faults ≤ most_faults) }
{
    let named = request.named?.with(step)?;
    Some(Request {
        named: Some(named),
        ..request
    })
}

fn with_share(request: Request, share: Option<Share>) -> Option<Request>
    requires share { IfSome share IsShare }
    requires few { request.faults ≤ most_faults }
    ensures value { result ≡ with_share request share }
    ensures share { IfSome result (λ request. IsShare request.share) }
    ensures few { IfSome result (λ request. request.faults ≤ most_faults) }
{
    match share {
        Some(share) => Some(Request { share, ..request }),
        None => None,
    }
}

fn kind_of(word: &String) -> Option<Kind>
    ensures { result ≡ kind_of (string_bytes word.now) }
{
    match word.as_str() {
        "lost" => Some(Kind::Lost),
        "late" => Some(Kind::Late),
        "twice" => Some(Kind::Twice),
        "again" => Some(Kind::Again),
        _ => None,
    }
}

fn is_packets(word: &String) -> bool
    ensures { result ≡ is_packets (string_bytes word.now) }
{
    match word.as_str() {
        "--packets" => true,
        _ => false,
    }
}

fn is_sent(word: &String) -> bool
    ensures { result ≡ is_sent (string_bytes word.now) }
{
    match word.as_str() {
        "sent" => true,
        _ => false,
    }
}

fn is_of(word: &String) -> bool
    ensures { result ≡ is_of (string_bytes word.now) }
{
    match word.as_str() {
        "of" => true,
        _ => false,
    }
}

fn are_sets(word: &String) -> bool
    ensures { result ≡ are_sets (string_bytes word.now) }
{
    match word.as_str() {
        "sets" => true,
        _ => false,
    }
}

fn together_of(word: &String) -> Option<usize>
    ensures value { result ≡ together_of (string_bytes word.now) }
    ensures few { IfSome result (λ faults. faults ≤ most_faults) }
{
    match word.as_str() {
        "one" => Some(1),
        "pairs" => Some(2),
        "triples" => Some(3),
        _ => None,
    }
}

fn size_of(word: &[u8]) -> Option<usize>
    ensures value { result ≡ size_of word.now }
    ensures few { IfSome result (λ faults. faults ≤ most_faults) }
{
    match number(word) {
        Some(faults) => a_size(faults),
        None => None,
    }
}

fn a_size(faults: u32) -> Option<usize>
    ensures value { result ≡ a_size faults }
    ensures few { IfSome result (λ faults. faults ≤ most_faults) }
{
    if faults < 1 || 8 < faults {
        return None;
    }
    Some(faults as usize)
}

fn all() -> Share
    ensures { result ≡ all }
{
    Share {
        number: 1,
        parts: 1,
    }
}

fn share_of(word: &[u8]) -> Option<Share>
    ensures value { result ≡ share_of word.now }
    ensures within { IfSome result IsShare }
{
    match slash(word) {
        Some(at) => share_by(number(&word[..at]), number(&word[at + 1..])),
        None => None,
    }
}

fn slash(word: &[u8]) -> Option<usize>
    ensures place { result ≡ position is_slash word.now }
    ensures within { IfSome result (λ at. at < length word.now) }
{
    word.iter().position(|octet| *octet == b'/')
}

fn share_by(number: Option<u32>, parts: Option<u32>) -> Option<Share>
    ensures value { result ≡ share_by number parts }
    ensures within { IfSome result IsShare }
{
    let number = number?;
    let parts = parts?;
    if number < 1 || parts < number {
        return None;
    }
    Some(Share { number, parts })
}
