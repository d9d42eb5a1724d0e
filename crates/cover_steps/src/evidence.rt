//! Evidence: what pairs of rows agree on, and what much of it at once leaves of the candidates.

ghost use Rattle.std.specs.Prelude.{◌≡◌, ◌<◌, ℕ, List, false, OnOk, IfOk, IfSome};
ghost use Rattle.std.specs.List.{All};
ghost use Rattle.rel_base.specs.RowState.{RowState};
ghost use Rattle.candidate_cover.specs.Cands.{width, AreLeast};
ghost use Rattle.least_sets.specs.Drafts.{is_news};
ghost use Rattle.negative_cover.specs.Witnesses.{sets_of};
ghost use Rattle.negative_cover.specs.declared.negative_cover.Witness.{Witness};
ghost use Rattle.cover_steps.specs.Evidences.{IsEvidence, IsNews};

use candidate_cover::CandidateCover;
use least_sets::Draft;
use negative_cover::{NegativeCover, Witness};
use std::alloc::{AllocError, Global};

/// Evidence is what a witness is once it is booked.
pub use negative_cover::Witness as Evidence;

/// The evidence that no witness had told, as witnesses, and what these leave.
#[derive(Drop)]
pub struct News {
    /// The new witnesses, no two with one agree set.
    pub witnesses: Vec<Witness>,
    /// The agree sets of all witnesses, old and new.
    pub draft: Draft,
}

// What is news with this evidence, which is one more witness where it is news.
fn noted(news: News, evidence: Evidence) -> Result<News, AllocError>
    ensures news { IfOk result (λ new. (r : RowState) (n : ℕ) (ws : List Witness) → IsEvidence r evidence → IsNews r n ws news.witnesses.items news.draft → IsNews r n ws new.witnesses.items new.draft) }
    ensures told { IfOk result (λ new. is_news new.draft.width new.draft.agree_sets evidence.agree ≡ false) }
    ensures kept { IfOk result (λ new. (z : ℕ) → is_news news.draft.width news.draft.agree_sets z ≡ false → is_news new.draft.width new.draft.agree_sets z ≡ false) }
{
    let News {
        mut witnesses,
        draft,
    } = news;
    let (draft, is_news) = draft.noted(evidence.agree)?;
    if !is_news {
        return Ok(News { witnesses, draft });
    }
    witnesses.push(evidence)?;
    Ok(News { witnesses, draft })
}

// What is news with one piece of evidence after another.
fn noted_each(start: News, found: &[Evidence]) -> Result<News, AllocError>
    ensures news { IfOk result (λ new. (r : RowState) (n : ℕ) (ws : List Witness) → All (IsEvidence r) found.now → IsNews r n ws start.witnesses.items start.draft → IsNews r n ws new.witnesses.items new.draft) }
    ensures told { IfOk result (λ new. All (λ e. is_news new.draft.width new.draft.agree_sets e.agree ≡ false) found.now) }
{
    let mut news = start;
    let mut last = None;
    for evidence in found {
        if last != Some(evidence.agree) {
            news = noted(news, *evidence)?;
            last = Some(evidence.agree);
        }
    }
    Ok(news)
}

impl News {
    /// With what is news in further evidence. It takes a look at the witnesses a piece. The largest agree sets come first, since one inside
    /// another is seldom news.
    pub fn with(self, mut found: Vec<Evidence>) -> Result<News, AllocError>
        ensures news { IfOk result (λ new. (r : RowState) (n : ℕ) (ws : List Witness) → All (IsEvidence r) found.items → IsNews r n ws self.witnesses.items self.draft → IsNews r n ws new.witnesses.items new.draft) }
        ensures told { IfOk result (λ new. All (λ e. is_news new.draft.width new.draft.agree_sets e.agree ≡ false) found.items) }
    {
        found.sort_unstable();
        found.reverse();
        noted_each(self, found.as_slice())
    }
}

/// What is news in this evidence.
pub fn news_of(
    alloc: Global,
    witnesses: &NegativeCover,
    candidates: &CandidateCover,
    found: Vec<Evidence>,
) -> Result<News, AllocError>
    requires { AreLeast (width candidates.now) (sets_of witnesses.now) candidates.now }
    ensures news { IfOk result (λ news. (r : RowState) → All (IsEvidence r) found.items → IsNews r (width candidates.now) witnesses.now news.witnesses.items news.draft) }
    ensures told { IfOk result (λ news. All (λ e. is_news news.draft.width news.draft.agree_sets e.agree ≡ false) found.items) }
{
    let draft = candidates.draft(alloc, witnesses.agree_sets(alloc)?)?;
    let none = News {
        witnesses: Vec::new(alloc),
        draft,
    };
    none.with(found)
}
