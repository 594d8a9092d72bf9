// Records with one value, as a chain from the first of them to the next.
ghost use Rattle.std.specs.Prelude.{◌≡◌, ℕ, List, ◌+◌, ◌-◌, ◌<◌, ◌^◌, [], ◌∷◌, ◌++◌, length, Some, IfSome, slice_get, vec_len, vec_capacity, OnOk, OnErr};
ghost use Rattle.std.specs.Option.{option_map};
ghost use Rattle.std.specs.Str.{bytes_eq};
ghost use Rattle.indexmap.specs.IndexMap.{get};
ghost use Rattle.net_bag.specs.Chains as spec;
ghost use Rattle.net_bag.specs.Chains.{IsFirstFrom};

use indexmap::IndexMap;
use std::alloc::{AllocError, Global};
use std::marker::Model;

// The numbers of the first and of the last record with one value.
#[derive(Clone, Copy)]
pub(crate) struct Chain {
    first: u32,
    last: u32,
}

// A record's value, and the number of the next record with the same value.
#[derive(Clone, Copy)]
pub(crate) struct Link {
    digest: [u8; 32],
    next: Option<u32>,
}

// The values of a list of records, in which the first of one value, and the next after a record, is
// found in constant time. A contract sees it as the list of the values.
#[derive(Drop)]
pub(crate) struct Chains {
    chains: IndexMap<[u8; 32], Chain>,
    links: Vec<Link>,
}

impl Model for Chains {
    ghost use Rattle.std.specs.Prelude.{List, ℕ, ◌<◌, ◌^◌, vec_len};
    ghost use Rattle.std.specs.Str.{bytes_eq};
    ghost use Rattle.indexmap.specs.IndexMap.{get};
    ghost use Rattle.net_bag.specs.Chains.{digests_of, IsChained};

    ghost Value = { List (List ℕ) };

    ghost view = { λ c. digests_of c.links.items };

    ghost invariant = { λ c. IsChained (get bytes_eq c.chains) c.links.items × (vec_len c.links < 2 ^ 32) };
}

impl Chains {
    // No records. It takes no memory.
    pub fn new(alloc: Global) -> Chains
        ensures { result ≡ [] }
    {
        Chains {
            chains: IndexMap::new(alloc),
            links: Vec::new(alloc),
        }
    }

    // How many records there are.
    pub fn len(&self) -> usize
        ensures { result ≡ length self.now }
    {
        self.links.len()
    }

    // The number of the first record with this value.
    pub fn first(&self, digest: &[u8; 32]) -> Option<u32>
        ensures { IsFirstFrom self.now digest.now 0 result }
    {
        first_of(&self.chains, digest)
    }

    // The number of the next record with the same value.
    pub fn next(&self, number: u32) -> Option<u32>
        requires { number < length self.now }
        ensures { (d : List ℕ) → slice_get self.now number ≡ Some d → IsFirstFrom self.now d (number + 1) result }
    {
        self.links[number as usize].next
    }

    // Puts the value of one record more at the end. Where memory runs out nothing changes.
    pub fn push(&mut self, digest: [u8; 32]) -> Result<(), AllocError>
        requires { length self.old < 2 ^ 32 - 1 }
        ensures ok { OnOk result (self.new ≡ self.old ++ digest ∷ []) }
        ensures err { OnErr result (self.new ≡ self.old) }
    {
        self.links.reserve(1)?;
        let chain = chain_of(&self.chains, &digest);
        let number = self.links.len() as u32;
        self.chains.insert(digest, chain_with(chain, number))?;
        put_link(&mut self.links, chain, digest);
        Ok(())
    }
}

// The chain of the records with this value.
fn chain_of(chains: &IndexMap<[u8; 32], Chain>, digest: &[u8; 32]) -> Option<Chain>
    ensures { result ≡ get bytes_eq chains.now digest.now }
{
    chains.get(digest).copied()
}

// The first record with this value.
fn first_of(chains: &IndexMap<[u8; 32], Chain>, digest: &[u8; 32]) -> Option<u32>
    ensures { result ≡ option_map (λ c. c.first) (get bytes_eq chains.now digest.now) }
{
    chains.get(digest).map(|chain| chain.first)
}

// The chain of the value that the record of this number at the end has.
fn chain_with(chain: Option<Chain>, number: u32) -> Chain
    ensures { result ≡ spec.chain_with chain number }
{
    match chain {
        None => Chain {
            first: number,
            last: number,
        },
        Some(chain) => Chain {
            first: chain.first,
            last: number,
        },
    }
}

// Puts a link at the end, and leads to it from the last one of its chain.
fn put_link(links: &mut Vec<Link>, chain: Option<Chain>, digest: [u8; 32])
    requires room { vec_len links.old < vec_capacity links.old }
    requires few { vec_len links.old < 2 ^ 32 - 1 }
    requires last { IfSome chain (λ c. c.last < length links.old.items) }
    ensures items { links.new.items ≡ spec.linked links.old.items chain digest }
    ensures len { vec_len links.new ≡ vec_len links.old + 1 }
{
    let number = links.len() as u32;
    if let Some(chain) = chain {
        links[chain.last as usize] = Link {
            digest,
            next: Some(number),
        };
    }
    links.push_reserved(Link { digest, next: None });
}
