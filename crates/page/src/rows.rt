// Which words of the tables belong to a component: its element's and its row's.
ghost use Rattle.std.specs.Prelude.{◌+◌, ◌≡◌, get_or};
ghost use Rattle.guide.specs.Page.{unused, element_of};
ghost use Rattle.page.specs.workers.Words.{row_in, element_in, page_in, ElementWord};

use crate::words::{element_word, row_word};

// The word of the element behind element e of the page that has a word; 0 where the page has none.
pub(crate) fn element_behind(page: usize, e: usize) -> usize
    ensures { ElementWord result (element_of (page_in page) (e + 1)) }
{
    if page / 1024 % 32 <= e {
        return 0;
    }
    element_word(page % 1024 + e)
}

// The word of row c of the element that has a word; 0 where the element has none.
pub(crate) fn row_at(element: usize, c: usize) -> usize
    ensures { row_in result ≡ get_or (element_in element).rows c unused }
{
    if element / 1024 % 32 <= c {
        return 0;
    }
    row_word(element % 1024 + c)
}
