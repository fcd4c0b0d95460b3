ghost use Rattle.std.specs.Prelude.{ℕ, List};
ghost use Rattle.status_view.specs.declared.view.View.{View};
ghost use Rattle.status_view.specs.declared.layout.EntryList.{EntryList};
ghost use Rattle.status_view.specs.declared.changes.ChangeShape.{ChangeShape};
ghost use Rattle.status_view.specs.Shapes.{GatewayShapeView, PageShapeView};
ghost use Rattle.status_view.specs.Page.{page_nodes};
ghost use Rattle.status_view.specs.OneObject.{object_page_nodes};
ghost use Rattle.status_view.specs.EntriesPage.{entries_page_nodes};
ghost use Rattle.status_view.specs.ChangesLayout.{changes_nodes, feed_nodes};
ghost use Rattle.status_view.specs.Filling.{filled};
ghost use Rattle.desk_view.specs.declared.page.DeskPage.{DeskPage};
ghost use Rattle.desk_view.specs.declared.marks.MarksPage.{MarksPage};
ghost use Rattle.desk_view.specs.Page.{page_parts};
ghost use Rattle.desk_view.specs.Marks.{marks_parts};
ghost use Rattle.page_tags.specs.Tags.{HasOwnTags};

/// States that no text changes the tags of a page; it does nothing.
pub fn tag_laws()
    // Of the page of states, of that of an object, those of comments and of downtime entries, that of
    // changes, and of the feed.
    ensures page { (view : View) (shape : PageShapeView)
        → HasOwnTags (filled view (page_nodes shape)) }
    ensures object { (view : View) (shape : PageShapeView) (changes : List ChangeShape)
        → HasOwnTags (filled view (object_page_nodes shape changes)) }
    ensures entries { (view : View) (list : EntryList) (shape : PageShapeView)
        → HasOwnTags (filled view (entries_page_nodes list shape)) }
    ensures changes { (view : View) (refresh : ℕ) (gateways : List GatewayShapeView)
        (rows : List ChangeShape)
        → HasOwnTags (filled view (changes_nodes refresh gateways rows)) }
    ensures feed { (view : View) (clock : ℕ) (rows : List ChangeShape)
        → HasOwnTags (filled view (feed_nodes clock rows)) }
    // Of the pages with forms: that of an object, and that of many.
    ensures desk { (page : DeskPage) → HasOwnTags (page_parts page) }
    ensures marks { (page : MarksPage) → HasOwnTags (marks_parts page) }
{}
