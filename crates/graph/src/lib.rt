// Document 01, modules 2 and 3, and document 02, L5: the graph of a chart, completed, joined, and cut or not, as tables of records, each record with the node that owns it.
// A node's list is its records in table order.
#![tactic(auto)]

ghost use Rattle.std.specs.Prelude.{◌≡◌, ◌+◌, ◌<◌, MatchOption};
ghost use Rattle.std.proofs.Math.Option.{none, some};
ghost use Rattle.graph.specs.Outcome.{IsGraph};
ghost use Rattle.graph.specs.Completed.{IsCompleted};
ghost use Rattle.graph.specs.code.Tables.{mark_of};
ghost use Rattle.graph.specs.code.Graphs.{Held, IsJoined};
ghost use Rattle.graph.specs.Ends.{ends_in};

use chart::{Board, Lines, Setting};
use refusals::Refusal;
use tables::Table;

mod completion;
mod cutting;
mod joining;
mod reach;
mod records;

// A source or a sink: its text's place in the chart, its node, the node at the other end, its mark (`number` says which sink it names), and how many characters its
// text has. (In this order it takes 6 bytes.)
#[derive(Clone, Copy, Default)]
pub struct Item {
    pub at: u16,
    pub owner: u8,
    pub to: u8,
    pub mark: u8,
    pub len: u8,
}

// A mark is held as its number plus 1, and none as 0: an Option would make 8 bytes of 6.
impl Item {
    // The number of the sink that it marks, if any.
    pub fn number(&self) -> Option<u8>
        ensures { MatchOption result (mark_of self.now.mark ≡ none) (λ i. mark_of self.now.mark ≡ some i) }
    {
        self.mark.checked_sub(1)
    }

    // The mark that names sink i.
    fn marked(i: u8) -> u8
        requires { i < 255 }
        ensures { result ≡ i + 1 }
    {
        i + 1
    }
}

// The sources, or the sinks, of all nodes.
pub type Items = Table<Item, 88>;

// As many nodes as the tables hold.
const NODES: usize = 48;

// What a box shows beside its given lines: nothing, the number of a given node (a cut's box), or the target of a lead to nothing.
#[derive(Clone, Copy)]
pub enum Name {
    Nothing,
    Number(u8),
    Invalid(u8),
}

// n nodes and the cuts that made the inserted ones; the name of each node; and the given lines, the sources and the sinks of all.
#[derive(Clone, Copy)]
pub struct Tables {
    pub n: usize,
    pub cuts: u8,
    pub names: [Name; NODES],
    pub lines: Lines,
    pub sources: Items,
    pub sinks: Items,
}

// An accepted chart's board, completed and joined, or refusal 13. (Its frame is gone before the cutting and the sorting are called, for the unit's stack.)
#[inline(never)]
fn joined_of(board: &Board) -> Result<Tables, Refusal>
    requires { Held board.now }
    ensures { IsJoined board.now result }
{
    let mut whole = records::begin(board);
    completion::complete(&mut whole);
    let leads = joining::count_leads(&whole);
    if NODES < whole.n + leads {
        return Err(Refusal::ManyBoxes);
    }
    joining::join(&mut whole, leads);
    Ok(whole)
}

// The graph of a chart in a setting, completed, joined and cut, or the first refusal of 1 to 13.
#[inline(never)]
pub fn graph(chart: &[u8], setting: Setting) -> Result<Tables, Refusal>
    ensures { IsGraph setting chart.now result }
{
    let board = chart::read(chart, setting)?;
    let mut dag = joined_of(&board)?;
    cutting::cut_cycles(&mut dag)?;
    records::finished(&mut dag);
    Ok(dag)
}

// The graph of a chart in the strict setting, completed and not cut, or the first refusal of 1 to 12.
pub fn completed(chart: &[u8]) -> Result<Tables, Refusal>
    ensures { IsCompleted chart.now result }
{
    let board = chart::read(chart, Setting::Strict)?;
    let mut whole = joined_of(&board)?;
    records::finished(&mut whole);
    Ok(whole)
}

// Whose an end is, and where it leads.
#[derive(Clone, Copy, Default)]
pub struct Lead {
    pub owner: u8,
    pub to: u8,
}

// The ends of all nodes, sources or sinks, for the stages that read only where they lead.
pub type Ends = Table<Lead, 88>;

// Where the records of a table lead.
pub fn ends_of(t: Items) -> Ends
    ensures { result ≡ ends_in t }
{
    let mut items = [Lead::default(); 88];
    for (k, x) in t.items.iter().enumerate() {
        items[k] = Lead {
            owner: x.owner,
            to: x.to,
        };
    }
    Table {
        items,
        count: t.count,
    }
}
