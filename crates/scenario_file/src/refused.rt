ghost use Rattle.std.specs.Prelude.{◌≡◌, ◌≤◌, ◌+◌, ◌++◌, length};
ghost use Rattle.scenario_file.specs.Refused.{place_text, fault_text, refused_text};

use crate::ScenarioFault;
use itoa::Buffer;
use rec_base::Bounded;

impl ScenarioFault {
    /// The line for a text that is no scenario, in ASCII, with the LF that ends it: its first fault, and the
    /// place of it. It takes no memory: the longest line names a step of ten digits and a field of nine letters.
    #[tactic(auto, unfolding(crate::specs::Refused::refused_text))]
    pub fn line(&self) -> Bounded<48>
        ensures { result ≡ refused_text self.now }
    {
        let mut line = Bounded::new();
        line.append(b"refused ");
        add_fault(&mut line, self);
        line.append(b"\n");
        line
    }
}

// Adds what the fault is, and where.
fn add_fault(line: &mut Bounded<48>, fault: &ScenarioFault)
    requires { length line.old ≤ 8 }
    ensures text { line.new ≡ line.old ++ fault_text fault.now }
    ensures short { length line.new ≤ 47 }
{
    match *fault {
        ScenarioFault::Memory => {}
        ScenarioFault::NotToml => line.append(b"text"),
        ScenarioFault::TooMany => line.append(b"steps"),
        ScenarioFault::Missing(step, field) => {
            add_place(line, step);
            line.append(b" missing ");
            line.append(field.name().as_bytes());
        }
        ScenarioFault::Wrong(step, field) => {
            add_place(line, step);
            line.append(b" wrong ");
            line.append(field.name().as_bytes());
        }
        ScenarioFault::Unknown(step) => {
            add_place(line, step);
            line.append(b" unknown");
        }
    }
}

// Adds the place.
fn add_place(line: &mut Bounded<48>, step: Option<u32>)
    requires { length line.old ≤ 8 }
    ensures text { line.new ≡ line.old ++ place_text step }
    ensures short { length line.new ≤ 23 }
{
    match step {
        None => line.append(b"setup"),
        Some(step) => {
            line.append(b"step ");
            line.append(Buffer::new().format(step).as_bytes());
        }
    }
}
