// Refusal 20's sizes of a whole block, job by job.
ghost use Rattle.std.specs.Prelude.{◌≡◌};
ghost use Rattle.theory.specs.Engine.{block_fits};
ghost use Rattle.rules.specs.Box.{limits, box};
ghost use Rattle.rules.specs.Block.{block_of};

use machine::job::Job;
use rules::block::Block;
use rules::sizes::job_fits;

// Whether a block in work fits its sizes.
pub(crate) fn block_fits(b: &Block) -> bool
    ensures { result ≡ block_fits limits box (block_of b.now) }
{
    if Job::MOST < b.count {
        return false;
    }
    let (checkpoints, _) = b.checkpoints.as_chunks::<{ Block::SLOTS }>();
    let mut fits = true;
    for k in 0..usize::from(b.count) {
        fits &= job_fits(
            &b.jobs[k],
            &b.states[k],
            &b.journals[k],
            &b.versions[k],
            &b.reads[k],
            &checkpoints[k],
        );
    }
    fits
}
