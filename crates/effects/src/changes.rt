// Kinds 4, 5 and 6, which change the page that they bring.
ghost use Rattle.std.specs.Prelude.{◌≡◌, length};
ghost use Rattle.lockpage.specs.Geometry.{present};
ghost use Rattle.lockpage.specs.Size.{page_size};
ghost use Rattle.addressing.specs.Map.{group_of};
ghost use Rattle.disk.specs.Disk.{HasGroup};
ghost use Rattle.machine.specs.declared.Kind.TheVariants.{Change};
ghost use Rattle.machine.specs.Command.{brought_page};
ghost use Rattle.machine.specs.Question.{content_length};
ghost use Rattle.machine.specs.Effect.{stored, put_content, updated_page};
ghost use Rattle.machine.specs.Effect as E;
ghost use Rattle.machine.specs.Step.{accepted};
ghost use Rattle.machine.specs.Call.{box_at, command_at, outcome_at};
ghost use Rattle.effects.specs.Ready.{MayChange, ChangeReady};

use lockpage::{PAGE_SIZE, Update};

// A write stores its content.
fn put_content(disk: &mut [u8], u: Update, block: u32, content: &[u8])
    requires { HasGroup present disk.old (group_of present block) × (length content.now ≡ content_length present (Change u)) }
    ensures { disk.new ≡ stored present disk.old (put_content present u block content.now) }
{
    match u {
        Update::Write(_) => disk::whole::store_block(disk, block, content),
        Update::Unfreeze => {}
        Update::Increment(_) => {}
    }
}

// Stores the brought page with the block's entry updated.
fn store_changed(page: &mut [u8], u: Update, block: u32, time: u32, proof: &[u8])
    requires { MayChange present u block time proof.now × (length page.old ≡ page_size present) }
    ensures { page.new ≡ updated_page present u (brought_page present proof.now) block time }
{
    let e = arguments::brought_entry(proof, block);
    page.copy_from_slice(&proof[0..PAGE_SIZE]);
    let place = addressing::place_of(block);
    lockpage::entries::store_entry(page, place, lockpage::updates::updated(u, time, e));
}

// Kinds 4, 5 and 6. Of the command's own kind and value the effect looks only at u.
pub fn change(
    memory: &mut [u8],
    disk: &mut [u8],
    u: Update,
    block: u32,
    time: u32,
    content: &[u8],
    proof: &[u8],
    answer: &mut [u8],
)
    requires { ChangeReady present u (box_at memory.old disk.old) (command_at 0 block time 0 content.now proof.now answer.old) }
    ensures { outcome_at 0 memory.new disk.new answer.new
        ≡ accepted present (λ s. E.change present u s (command_at 0 block time 0 content.now proof.now answer.old))
        (box_at memory.old disk.old) time }
{
    let group = addressing::group_of(block);
    memory::set_last_time(memory, time);
    write_back::evict(memory, disk, group);
    put_content(disk, u, block, content);
    store_changed(&mut answer[0..PAGE_SIZE], u, block, time, proof);
    write_back::hold_or_put(memory, disk, group, &answer[0..PAGE_SIZE]);
    tags::store_tag(memory, group, answer);
}
