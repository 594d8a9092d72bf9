// ZUC behind its initialisation.
ghost use Rattle.std.specs.Prelude.{◌≡◌};
ghost use Rattle.zuc.specs.State.{after, initialised, sixteen_words};

use crate::generator::Generator;
use std::marker::Model;

/// ZUC under one key and IV. A contract sees it as the state that its next words follow.
#[derive(Drop)]
pub struct Zuc {
    // the first stage is at place 0
    generator: Generator,
}

impl Model for Zuc {
    ghost use Rattle.zuc.specs.State.{State, state_at};

    ghost Value = { State };

    ghost view = { λ z. state_at 0 z.generator };
}

impl Zuc {
    /// ZUC under a key and an IV of 16 octets each, initialised (TS 35.222 3.5 and 3.6.1).
    pub fn new(key: &[u8; 16], iv: &[u8; 16]) -> Zuc
        ensures { result ≡ initialised key.now iv.now }
    {
        let mut generator = Generator::load(key, iv);
        generator.mix_sixteen();
        generator.mix_sixteen();
        Zuc { generator }
    }

    /// The next sixteen words of the keystream (TS 35.222 3.6.2).
    pub fn next_words(&mut self) -> [u32; 16]
        ensures state { self.new ≡ after self.old 16 }
        ensures value { result ≡ sixteen_words self.old }
    {
        self.generator.next_words()
    }
}
