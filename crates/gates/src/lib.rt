// What a call is lent: whether it lets the call go on, or the refusal that it causes; and home, as a part of it.
#![tactic(auto)]

ghost use Rattle.std.specs.Prelude.{◌≡◌, ◌+◌};
ghost use Rattle.std.proofs.Math.Option.{none};
ghost use Rattle.refusals.specs.Rules.{refusal};
ghost use Rattle.gates.specs.Gates.{gate_rules, gated, home_in, home_from};

use image_log::Mark;
use refusals::Refusal;

// Which of the two is lent.
#[derive(Clone, Copy, Debug, PartialEq, Eq)]
pub enum Of {
    Image,
    Space,
}

// An image lent to begin, commit or a read.
#[tactic(auto, unfolding(crate::specs::Gates::gate_rules, image_log::specs::Calls::image_rules, image_log::specs::Calls::head_rules, image_log::specs::Head::head_of, refusals::specs::Rules::first))]
fn image_gate(image: &[u8]) -> Result<(), Refusal>
    ensures { result ≡ gated (gate_rules Of.Image image.now) }
{
    match image_log::read_head(image)? {
        Mark::Clear => {
            if sound::sound(image_log::home_behind(image)) {
                Ok(())
            } else {
                Err(Refusal::UnsoundHome)
            }
        }
        Mark::Committed | Mark::Spoiled => Err(Refusal::Unrecovered),
    }
}

// A workspace lent alone.
#[tactic(auto, unfolding(crate::specs::Gates::gate_rules, refusals::specs::Rules::first))]
fn space_gate(space: &[u8]) -> Result<(), Refusal>
    ensures { result ≡ gated (gate_rules Of.Space space.now) }
{
    if !sound::sized(space) {
        return Err(Refusal::SpaceLength);
    }
    if sound::sound(space) {
        Ok(())
    } else {
        Err(Refusal::UnsoundSpace)
    }
}

// Whether what is lent lets a call go on.
pub fn gate(of: Of, bytes: &[u8]) -> Result<(), Refusal>
    ensures { result ≡ gated (gate_rules of bytes.now) }
{
    match of {
        Of::Image => image_gate(bytes),
        Of::Space => space_gate(bytes),
    }
}

// Home: the last 26 + R pages of an image, or a whole workspace.
#[tactic(auto, using(crate::specs::GatesLaws::image_open), unfolding(crate::specs::Gates::home_in, crate::specs::Gates::home_from))]
pub fn home(of: Of, bytes: &[u8]) -> &[u8]
    requires { refusal (gate_rules of bytes.now) ≡ none }
    ensures result_value { result.now ≡ home_in of bytes.now }
    ensures ref_ptr_value { (result.ref_ptr.0 ≡ bytes.entry.ref_ptr.0) × (result.ref_ptr.1 ≡ bytes.entry.ref_ptr.1 + home_from of bytes.now) }
{
    match of {
        Of::Image => image_log::home_behind(bytes),
        Of::Space => bytes,
    }
}
