// Nets, each once.
ghost use Rattle.std.specs.Prelude.{◌≡◌, ◌∷◌, ◌++◌, true, [], length, map, IfOk, OnErr, OnOk};
ghost use Rattle.std.specs.List.{list_any};
ghost use Rattle.growth.specs.Growth.{WasRefused};
ghost use Rattle.trace_keys.specs.Marks.{mark_of as mark_by};
ghost use Rattle.trace_keys.specs.Same.{same_net as same_net_by};
ghost use Rattle.trace_rules.proofs.Members.{Sub};
ghost use Rattle.trace_plain.specs.Once.{added, once_from};

use std::alloc::{AllocError, Global};
use std::marker::Model;
use trace_keys::{Mark, Net, mark_of, same_mark, same_net};

/// Nets, each once, with their marks: most nets that are compared differ by these. A contract sees the nets.
#[derive(Drop)]
pub(crate) struct Nets {
    nets: Vec<Net>,
    marks: Vec<Mark>,
}

impl Model for Nets {
    ghost use Rattle.std.specs.Prelude.{◌≡◌, List, ℕ, map};
    ghost use Rattle.trace_keys.specs.Net.{Net as NetOf};
    ghost use Rattle.trace_keys.specs.Marks.{mark_of as mark_by};

    ghost Value = { List (NetOf (List ℕ) ℕ) };

    ghost view = { λ n. n.nets.items };

    ghost invariant = { λ n. n.marks.items ≡ map mark_by n.nets.items };
}

// Whether two nets are one.
fn is_it(other: &Net, other_mark: &Mark, net: &Net, mark: &Mark) -> bool
    requires other { other_mark.now ≡ mark_by other.now }
    requires this { mark.now ≡ mark_by net.now }
    ensures { result ≡ same_net_by other.now net.now }
{
    same_mark(other_mark, mark) && same_net(other, net)
}

// Whether a net is one of these.
fn has(nets: &[Net], marks: &[Mark], net: &Net) -> bool
    requires { marks.now ≡ map mark_by nets.now }
    ensures { result ≡ list_any (λ other. same_net_by other net.now) nets.now }
{
    let mark = mark_of(net);
    for place in 0..nets.len() {
        if is_it(&nets[place], &marks[place], net, &mark) {
            return true;
        }
    }
    false
}

impl Nets {
    /// One net.
    pub(crate) fn one(alloc: Global, net: &Net) -> Result<Nets, AllocError>
        ensures nets { IfOk result (λ nets. nets ≡ net.now ∷ []) }
        ensures refused { OnErr result WasRefused }
    {
        let nets = growth::from_slice(alloc, &[*net])?;
        let marks = growth::from_slice(alloc, &[mark_of(net)])?;
        Ok(Nets { nets, marks })
    }

    /// The nets.
    pub(crate) fn as_slice(&self) -> &[Net]
        ensures { result.now ≡ self.now }
    {
        self.nets.as_slice()
    }

    /// How many there are.
    pub(crate) fn len(&self) -> usize
        ensures { result ≡ length self.now }
    {
        self.nets.len()
    }

    /// None.
    pub(crate) fn clear(&mut self)
        ensures { self.new ≡ [] }
    {
        self.nets.clear();
        self.marks.clear();
    }

    // With a net at the end. Where memory runs out, there is none left.
    fn push(&mut self, net: &Net) -> Result<(), AllocError>
        ensures items { OnOk result (self.new ≡ self.old ++ net.now ∷ []) }
        ensures refused { OnErr result WasRefused }
    {
        growth::push(&mut self.nets, *net)?;
        if let Err(refused) = growth::push(&mut self.marks, mark_of(net)) {
            self.nets.clear();
            self.marks.clear();
            return Err(refused.into());
        }
        Ok(())
    }

    /// Whether each of these is there.
    pub(crate) fn has_all(&self, nets: &[Net]) -> bool
        ensures { result ≡ true → Sub nets.now self.now }
    {
        for net in nets {
            let known = has(self.nets.as_slice(), self.marks.as_slice(), net);
            if !known {
                return false;
            }
        }
        true
    }

    /// With a net, if it is not there.
    pub(crate) fn add(&mut self, net: &Net) -> Result<(), AllocError>
        ensures items { OnOk result (self.new ≡ added same_net_by self.old net.now) }
        ensures refused { OnErr result WasRefused }
    {
        let known = has(self.nets.as_slice(), self.marks.as_slice(), net);
        if !known {
            self.push(net)?;
        }
        Ok(())
    }

    /// With each of these, if it is not there.
    pub(crate) fn add_all(&mut self, nets: &[Net]) -> Result<(), AllocError>
        ensures items { OnOk result (self.new ≡ once_from same_net_by self.old nets.now) }
        ensures refused { OnErr result WasRefused }
    {
        for net in nets {
            self.add(net)?;
        }
        Ok(())
    }
}
