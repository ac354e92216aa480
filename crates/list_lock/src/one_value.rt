ghost use Rattle.list_lock.specs.Moved.{OneValue};

/// The law that a book is shown by one value of the lock. So what a call promises of the book pins all that the lock holds.
pub fn a_book_shows_one_value()
    ensures { OneValue }
{}
