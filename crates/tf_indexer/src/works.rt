// Pages as works.
ghost use Rattle.std.specs.Prelude.{◌≡◌};
ghost use Rattle.tf_indexer.specs.Works.{work_by};

use tf_core::Work;
use tf_plan::Page;

/// The work that a page is of checkpoint `n`: a Page, a Finish where it has no key, or the Fail of a sum outside `i64`.
/// Where it is the next page of the running checkpoint, the work fits the transform (`pages_fit`).
pub fn work_of(n: u64, page: Page) -> Work
    ensures { result ≡ work_by n page }
{
    match page {
        Page::Wide(sum) => Work::Fail { n, sum },
        Page::Rows { rows, .. } => {
            if rows.is_empty() {
                Work::Finish { n }
            } else {
                Work::Page { n, rows }
            }
        }
    }
}
