#![tactic(auto)]

// The gate as C calls it: a slice is a pointer and a length. It brings in nothing of sheets or solving.
ghost use Rattle.paper.specs.Promises.{Gates};

// The gate's number, on any list, text, word and workspace. strovimel_c has the same line: a C library holds the exports of its own crate alone.
#[unsafe(no_mangle)]
pub extern "C" fn strovimel_gate(list: &[u8], text: &[u8], word: &[u8], work: &mut [u64]) -> u32
    ensures { Gates list.now text.now word.now work.old result work.new }
{
    gate::number(gate::gate(list, text, word, work))
}
