// The numbers of a list, linked group by group: each to the next one that names the same group. So each group's numbers are found without
// a search, and the groups named are known, each once.
ghost use Rattle.lockpage.specs.Geometry.{present};
ghost use Rattle.machine.specs.Query.{number_count};
ghost use Rattle.block_states.specs.Links.{group_named, Linked, LinkReady};

use block_list::MOST_NUMBERS;

// Links the numbers, from the last to the first: the first number of each group, the next one behind each number, and the groups
// named. Where there is no number, MOST_NUMBERS stands for it. Answers how many groups are named.
pub(crate) fn link(blocks: &[u8], first: &mut [u16], next: &mut [u8], named: &mut [u8]) -> usize
    requires { LinkReady present blocks.now first.old next.old named.old }
    ensures { Linked (group_named present blocks.now) present.most_groups 0 (number_count blocks.now)
        first.new next.new named.new result }
{
    let mut groups = 0;
    for i in (0..block_list::count(blocks)).rev() {
        let group = addressing::group_of(block_list::number(blocks, i)) as usize;
        if first[group] as usize == MOST_NUMBERS {
            named[groups] = group as u8;
            groups += 1;
        }
        next[i] = first[group] as u8;
        first[group] = i as u16;
    }
    groups
}
