// SNOW 3G behind its initialisation.
ghost use Rattle.std.specs.Prelude.{◌≡◌};
ghost use Rattle.snow3g.specs.State.{after, initialised, sixteen_words};

use crate::generator::Generator;
use std::marker::Model;

/// SNOW 3G under one key and IV. A contract sees it as the state that its next words follow.
#[derive(Drop)]
pub struct Snow3g {
    // the first stage is at place 0
    generator: Generator,
}

impl Model for Snow3g {
    ghost use Rattle.snow3g.specs.State.{State, state_at};

    ghost Value = { State };

    ghost view = { λ s. state_at 0 s.generator };
}

impl Snow3g {
    /// SNOW 3G under a key of 16 octets and the words IV0 to IV3, initialised (TS 35.216 4.1).
    pub fn new(key: &[u8; 16], iv: [u32; 4]) -> Snow3g
        ensures { result ≡ initialised key.now iv }
    {
        let mut generator = Generator::load(key, iv);
        generator.mix_sixteen();
        generator.mix_sixteen();
        Snow3g { generator }
    }

    /// The next sixteen words of the keystream (TS 35.216 4.2).
    pub fn next_words(&mut self) -> [u32; 16]
        ensures state { self.new ≡ after self.old 16 }
        ensures value { result ≡ sixteen_words self.old }
    {
        self.generator.next_words()
    }
}
