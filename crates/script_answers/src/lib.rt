// A line of a script: its command is run, and what it answers is printed. The contracts cite specs/.
#![tactic(auto)]

pub mod printing;

ghost use Rattle.std.specs.Prelude.{◌≡◌};
ghost use Rattle.octets.specs.Part.{repeated};
ghost use Rattle.lockpage.specs.Geometry.{present};
ghost use Rattle.addressing.specs.Map.{disk_size};
ghost use Rattle.memory.specs.Layout.{memory_size};
ghost use Rattle.machine.specs.Command.{box_of, command_of};
ghost use Rattle.machine.specs.Step.{step};
ghost use Rattle.script_answers.specs.Answer.{box_in, buffer, page_got, ran_of, ran_with, ran_line};

use addressing::{BLOCK_SIZE, GROUP_SIZE};
use arguments::kinds;
use lockpage::ENTRY_SIZE;
use lockpage::states::TIME_LEFT_SIZE;
use machine::Kind;
use memory::layout::MEMORY_SIZE;
use script_lines::Values;
use tags::ANSWER_SIZE;

// The kind that gets a page: a command's kind is a number, as C gives it.
const PAGE_KIND: u32 = 3;

// What is printed of an answer: its number, and the state and time left of an entry.
#[derive(Clone, Copy, Debug, PartialEq, Eq)]
pub struct Shown {
    pub number: u32,
    pub state: u8,
    pub left: i64,
}

// The box of a script: one group. It has 34 kB, and is passed by reference.
#[derive(Drop)]
pub struct ScriptBox {
    pub memory: [u8; MEMORY_SIZE],
    pub disk: [u8; GROUP_SIZE],
}

impl ScriptBox {
    // All zeros, as memory and disk are before the formatting: script_printout's blank_box.
    #[tactic(auto, unfolding(octets::specs::Part::repeated, addressing::specs::Map::disk_size))]
    pub fn new() -> Self
        ensures { box_in result ≡ box_of (repeated (memory_size present) 0) (repeated (disk_size present 1) 0) }
    {
        ScriptBox {
            memory: [0; MEMORY_SIZE],
            disk: [0; GROUP_SIZE],
        }
    }

    // Sends a line's command with what it brings.
    fn send(&mut self, v: Values, content: &[u8], proof: &[u8]) -> Shown
        ensures { ran_of self.new result
            ≡ ran_with v.kind (step present (box_in self.old)
            (command_of v.kind v.block v.time v.value content.now proof.now buffer)) }
    {
        let mut answer = [0u8; ANSWER_SIZE];
        let answered = controller::command(
            &mut self.memory,
            &mut self.disk,
            v.kind,
            v.block,
            v.time,
            v.value,
            content,
            proof,
            &mut answer,
        );
        let number = machine::number(answered);
        let k = kinds::kind_numbered(v.kind, v.value);
        if !matches!(k, Kind::Entry) || answered.is_err() {
            return Shown {
                number,
                state: 0,
                left: 0,
            };
        }
        Shown {
            number,
            state: octets::load_u8(&answer, ENTRY_SIZE + TIME_LEFT_SIZE),
            left: octets::load_i64(&answer, ENTRY_SIZE),
        }
    }

    // Gets page 0, with its tag, by kind 3 at the last time.
    #[tactic(auto, unfolding(crate::specs::Answer::page_got))]
    fn get_page(&mut self, page: &mut [u8; ANSWER_SIZE])
        requires { page.old ≡ buffer }
        ensures { (box_in self.new ≡ (page_got (box_in self.old)).box)
            × (page.new ≡ (page_got (box_in self.old)).answer) }
    {
        let time = memory::last_time(&self.memory);
        let _ = controller::command(
            &mut self.memory,
            &mut self.disk,
            PAGE_KIND,
            0,
            time,
            0,
            b"",
            b"",
            page,
        );
    }

    // Runs a line's command: a write's data and a new salt are of value mod 256, and kinds 4 to 6 bring the page that it gets first.
    pub fn run(&mut self, v: Values) -> Shown
        ensures { ran_of self.new result ≡ ran_line (box_in self.old) v }
    {
        let k = kinds::kind_numbered(v.kind, v.value);
        let content = [(v.value % 256) as u8; BLOCK_SIZE];
        let n = kinds::content_length(k);
        if kinds::proof_length(k) == 0 {
            return self.send(v, &content[..n], b"");
        }
        let mut page = [0u8; ANSWER_SIZE];
        self.get_page(&mut page);
        self.send(v, &content[..n], &page)
    }
}
