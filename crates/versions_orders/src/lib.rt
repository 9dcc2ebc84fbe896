// One command of the version store's, given to the controller. The contracts cite the definitions of versions_machine, and specs/ what
// is taken for granted.
#![tactic(auto)]

ghost use Rattle.std.specs.Prelude.{◌≡◌, [], ◌∷◌};
ghost use Rattle.lockpage.specs.Geometry.{present};
ghost use Rattle.addressing.specs.Map.{group_of};
ghost use Rattle.machine.specs.Tag.{tagged, current_page};
ghost use Rattle.machine.specs.Refusal.{number_of};
ghost use Rattle.machine.specs.Call.{box_at};
ghost use Rattle.versions_machine.specs.Plan.{order_of, carried_of, carried_out};
ghost use Rattle.versions_orders.specs.Ready.{OrderReady, BringReady};

use lockpage::{PAGE_SIZE, Update};
use machine::{Kind, Refusal};

// Fills proof with the current page of a block's group and its tag.
fn bring(memory: &[u8], disk: &[u8], block: u32, proof: &mut [u8])
    requires { BringReady present (box_at memory.now disk.now) block proof.old }
    ensures { proof.new
        ≡ tagged present memory.now (group_of present block)
        (current_page present (box_at memory.now disk.now) (group_of present block)) }
{
    let group = addressing::group_of(block);
    current_page::fetch(memory, disk, group, &mut proof[0..PAGE_SIZE]);
    tags::store_tag(memory, group, proof);
}

// Gives one order to the box, with the current page and tag of its block's group. Where it is refused, no byte is changed.
#[tactic(auto, using(lockpage::proofs::GeometryLaw::present_proper, crate::proofs::OrderLaw::no_block, crate::proofs::OrderLaw::wrong_length))]
pub fn give(
    memory: &mut [u8],
    disk: &mut [u8],
    u: Update,
    block: u32,
    time: u32,
    content: &[u8],
) -> Result<(), Refusal>
    requires { OrderReady present (box_at memory.old disk.old) time }
    ensures { carried_of (number_of result) (box_at memory.new disk.new)
        ≡ carried_out present (box_at memory.old disk.old) (order_of u block time content.now ∷ []) }
{
    if block as usize >= addressing::data_blocks(memory::groups(memory)) {
        return Err(Refusal::AddressOutOfRange);
    }
    if content.len() != arguments::kinds::content_length(Kind::Change(u)) {
        return Err(Refusal::LengthWrong);
    }
    let mut proof = [0u8; tags::PROOF_SIZE];
    bring(memory, disk, block, &mut proof);
    let mut answer = [0u8; tags::ANSWER_SIZE];
    controller::update(memory, disk, u, block, time, content, &proof, &mut answer)
}
