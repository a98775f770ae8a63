//! First images of pages.

ghost use Rattle.std.specs.Prelude.{◌≡◌, ◌==◌, true, is_some, find, option_copied};
ghost use Rattle.mlt_page.specs.Stores.{page_at};
ghost use Rattle.mlt_page_subtx.specs.Images.{with_first};

use mlt_page::{Page, Store};
use mlt_types::PageNo;

/// What a page had before a subtransaction first wrote it: nothing, where it was made then.
#[derive(Drop)]
pub(crate) struct Image {
    pub page: PageNo,
    pub first: Option<Page>,
}

/// What the room of an array holds where no image stands.
impl Default for Image {
    fn default() -> Image {
        Image {
            page: PageNo(0),
            first: None,
        }
    }
}

impl Image {
    /// Gives the page what it had at first, or drops it.
    pub fn put_back(self, store: &mut Store)
        requires { is_some (page_at store.old.pages self.page) ≡ true }
        ensures { let pages = with_first store.old.pages self.page self.first in
            store.new ≡ record store.old { pages = pages } }
    {
        let Image { page, first } = self;
        match first {
            Some(first) => store.write(page, first),
            None => store.drop_page(page),
        };
    }
}

/// The image of this page, if there is one.
pub(crate) fn find_image(images: &[Image], page: PageNo) -> Option<&Image>
    ensures { option_copied result ≡ find (λ image. image.page == page) images.now }
{
    images.iter().find(|image| image.page == page)
}
