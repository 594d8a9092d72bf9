// The actor that is served.
ghost use Rattle.std.specs.Prelude.{◌≡◌};
ghost use Rattle.edge_io.specs.declared.peers.Role.{Role};
ghost use Rattle.role_wire.specs.Ranges.{IsRole, IsSetup, IsInput, IsFrameIn};
ghost use Rattle.role_node.specs.Actor.{station_of, first_actor, step_of, turn};
ghost use Rattle.lte_events.specs.Reply.{reply_of};
ghost use Rattle.lte_events.specs.declared.answers.Answer.TheVariants.{Done};

use edge_io::Role;
use enb_context::Station;
use lte_events::{ActorIn, ActorOut, Answer, FirstNcc};
use mme_context::Core;
use role_wire::{FrameIn, RoleSetup};
use ue_context::Phone;

/// One actor of the system.
#[derive(Drop)]
pub enum Actor {
    /// A phone.
    Phone(Phone),
    /// A base station.
    Station(Station),
    /// The core.
    Core(Core),
}

impl Actor {
    // The actor that a Setup makes.
    #[tactic(auto, unfolding(crate::specs::Actor::first_actor))]
    fn new(role: Role, setup: &RoleSetup) -> Actor
        requires role { IsRole role }
        requires setup { IsSetup setup.now }
        ensures { result ≡ first_actor role setup.now }
    {
        match setup {
            RoleSetup::Phone(caps) => Actor::Phone(Phone::new(*caps)),
            RoleSetup::Station(order, first, cells) => {
                Actor::Station(Station::new(station_of(role), cells, *order, *first))
            }
            RoleSetup::Core(order, first, cells) => Actor::Core(Core::new(cells, *order, *first)),
            RoleSetup::StandardCore(order, first, cells) => {
                Actor::Core(Core::with_first_ncc(cells, *order, *first, FirstNcc::Two))
            }
        }
    }

    // A step of it.
    #[tactic(auto, unfolding(crate::specs::Actor::step_of))]
    fn step(&mut self, input: &ActorIn) -> ActorOut
        requires { IsInput input.now }
        ensures { (self.new, result) ≡ step_of self.old input.now }
    {
        match self {
            Actor::Phone(phone) => match input {
                ActorIn::Phone(input) => phone.step(input),
                _ => ActorOut::of(Answer::Done),
            },
            Actor::Station(station) => match input {
                ActorIn::Station(_, input) => station.step(input),
                _ => ActorOut::of(Answer::Done),
            },
            Actor::Core(core) => match input {
                ActorIn::Core(input) => core.step(input),
                _ => ActorOut::of(Answer::Done),
            },
        }
    }
}

// The number of a station.
fn station_of(role: Role) -> u8
    ensures { result ≡ station_of role }
{
    match role {
        Role::Station(id) => id,
        _ => 0,
    }
}

// What a frame does: a Setup makes the actor, and each later frame is a step of it.
pub(crate) fn turn(role: Role, actor: &mut Option<Actor>, frame: &FrameIn) -> ActorOut
    requires role { IsRole role }
    requires frame { IsFrameIn frame.now }
    ensures { (actor.new, result) ≡ turn role actor.old frame.now }
{
    match frame {
        FrameIn::Setup(setup) => {
            *actor = Some(Actor::new(role, setup));
            ActorOut::of(Answer::Done)
        }
        FrameIn::Input(input) => match actor {
            None => ActorOut::of(Answer::Done),
            Some(actor) => actor.step(input),
        },
    }
}
