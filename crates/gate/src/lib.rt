#![tactic(auto)]

// The gate: reads any well-formed cut list and says whether the list accepts a word. It knows nothing of sheets or solving.
pub mod answer;

ghost use Rattle.paper.specs.Promises.{Gates};
ghost use Rattle.gate.specs.Number.{number_of};

pub use answer::{Refusal, number};

// Whether the list accepts the word, with the text: on any list, text, word and workspace.
#[tactic(auto, unfolding(paper::specs::Answers::gate_says, paper::specs::Answers::gate_leaves, paper::specs::Answers::words, paper::specs::Answers::zeroed))]
pub fn gate(list: &[u8], text: &[u8], word: &[u8], work: &mut [u64]) -> Result<bool, Refusal>
    ensures { Gates list.now text.now word.now work.old (number_of result) work.new }
{
    let Some(trailer) = list::formed_trailer(list, text.len()) else {
        return Err(Refusal::Malformed);
    };
    if word.len() != trailer.n {
        return Err(Refusal::Length);
    }
    let Some(work) = work.first_chunk_mut::<{ paper::WORDS }>() else {
        return Err(Refusal::Workspace);
    };
    let accepted = reading::read(list, text, word, work);
    Ok(accepted)
}
