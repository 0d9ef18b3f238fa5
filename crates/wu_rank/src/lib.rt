//! Ranking by BM25 in whole numbers: which of the units hold a query word, the best first. BM25 is as
//! Büttcher, Clarke and Cormack give it in "Information Retrieval", chapter 8, with k1 = 1.2 and b = 0.75.
#![tactic(auto)]

mod bm25;
mod choosing;
mod counting;
mod entries;
mod galloping;
mod laws;
mod merging;
mod ordering;
mod pruning;
mod results;
mod scoring;
mod sweeping;

pub use bm25::{Ranker, bm25_weigh};
pub use counting::summed_length;
pub use laws::{any_order_of_units, one_order, score_within_bound};
pub use pruning::rank_pruned;
pub use results::{Pruned, Ranked, Ranking, Unit};
pub use scoring::rank;
