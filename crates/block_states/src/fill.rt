// The answer of a query, filled group by group.
ghost use Rattle.std.specs.Prelude.{◌≡◌, ◌+◌, ◌*◌, ◌≤◌, length};
ghost use Rattle.octets.specs.Part.{replaced};
ghost use Rattle.lockpage.specs.Geometry.{present};
ghost use Rattle.machine.specs.Query.{shown_size, shown_state, numbers, shown_states, pages_read};
ghost use Rattle.machine.specs.Call.{box_at};
ghost use Rattle.block_states.specs.Fill.{FillReady, GroupsReady, GroupReady, GroupShown};

use crate::links;
use block_list::MOST_NUMBERS;
use lockpage::{Entry, PAGE_SIZE, states};
use memory::layout;

// Stores what number i shows: the state and the time left that its entry says.
#[tactic(auto, using(crate::proofs::FillLaw::shown_stored))]
fn store_shown(answer: &mut [u8], i: usize, e: Entry, time: u32)
    requires { shown_size * i + shown_size ≤ length answer.old }
    ensures { answer.new ≡ replaced answer.old (shown_size * i) (shown_state time e) }
{
    let at = block_list::SHOWN_SIZE * i;
    octets::store_u8(answer, at, u8::from(states::state(e, time)));
    states::store_time_left(answer, at + block_list::STATE_SIZE, e, time);
}

// Answers the numbers of one group, along the links from its first; page is the group's.
fn answer_group(page: &[u8], blocks: &[u8], next: &[u8], from: usize, time: u32, answer: &mut [u8])
    requires { GroupReady present page.now blocks.now next.now from answer.old }
    ensures { GroupShown present page.now blocks.now from time answer.old answer.new }
{
    let mut i = from;
    while i < MOST_NUMBERS {
        let place = addressing::place_of(block_list::number(blocks, i));
        let e = lockpage::entries::load_entry(page, place);
        store_shown(answer, i, e, time);
        i = next[i] as usize;
    }
}

// Answers each group's numbers, from its current page. Answers the pages read.
fn answer_groups(
    memory: &[u8],
    disk: &[u8],
    blocks: &[u8],
    time: u32,
    first: &[u16],
    next: &[u8],
    named: &[u8],
    groups: usize,
    answer: &mut [u8],
) -> u32
    requires { GroupsReady present (box_at memory.now disk.now) blocks.now first.now next.now named.now groups answer.old }
    ensures { (result ≡ groups)
        × (answer.new ≡ shown_states present (box_at memory.now disk.now) time (numbers blocks.now)) }
{
    let mut page = [0u8; PAGE_SIZE];
    let mut pages = 0;
    for &group in &named[..groups] {
        pages += current_page::fetch(memory, disk, group as u32, &mut page);
        answer_group(
            &page,
            blocks,
            next,
            first[group as usize] as usize,
            time,
            answer,
        );
    }
    pages
}

// Fills the answer, and answers the pages read.
pub(crate) fn fill(memory: &[u8], disk: &[u8], blocks: &[u8], time: u32, answer: &mut [u8]) -> u32
    requires { FillReady present (box_at memory.now disk.now) blocks.now answer.old }
    ensures { (result ≡ pages_read present (numbers blocks.now))
        × (answer.new ≡ shown_states present (box_at memory.now disk.now) time (numbers blocks.now)) }
{
    let mut first = [MOST_NUMBERS as u16; layout::MOST_GROUPS as usize];
    let mut next = [0u8; MOST_NUMBERS];
    let mut named = [0u8; MOST_NUMBERS];
    let groups = links::link(blocks, &mut first, &mut next, &mut named);
    answer_groups(
        memory, disk, blocks, time, &first, &next, &named, groups, answer,
    )
}
