// The list of chosen pages.
ghost use Rattle.std.specs.Prelude.{◌≡◌, not, ◌<◌, ◌^◌};
ghost use Rattle.cutting.specs.Chosen.{wrong_list};
ghost use Rattle.cutting.specs.Steps.{next_chosen};

// Whether a list has a number at least, rises, and names pages from 1 to the last one alone.
pub fn right_list(list: &[u32], last: usize) -> bool
    ensures { result ≡ not (wrong_list last list.now) }
{
    let mut before = 0;
    for page in list {
        let page = *page as usize;
        if page <= before || last < page {
            return false;
        }
        before = page;
    }
    !list.is_empty()
}

// Whether the page after these is the next one of the list.
// No struct of the three: one place calls it, with the list and two of a Spot's five fields.
pub fn is_next(list: &[u32], met: usize, pages: usize) -> bool
    requires { pages < 2 ^ 32 }
    ensures { result ≡ next_chosen list.now met pages }
{
    met < list.len() && list[met] as usize == pages + 1
}
