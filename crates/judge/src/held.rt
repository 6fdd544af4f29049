// The chart that the words lent hold.
use sheet_contents::Run;
use workspace::Workspace;

// The run whose term's chart they hold, if they hold one.
pub type Held = Option<Run>;

// The words lent, and what they hold: assertions over one term share its chart, the dearest thing of a judgement.
#[derive(Drop)]
pub struct Lent<'a> {
    pub run: Held,
    pub work: &'a mut Workspace,
}
