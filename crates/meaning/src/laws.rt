// The laws of the meaning, each on a contract: a crate that needs one calls the function for its fact.
ghost use Rattle.meaning.specs.Laws.{ByRisingSenders, OnlyToThere, OnItsOwn, OverStays, NotWhileAwake, NotWhileUnderWay};

/// Letters come to a place by rising senders, those of one sender in the order sent, and none but those that were sent.
pub fn letters_come_by_rising_senders()
    ensures { ByRisingSenders }
{}

/// Letters to places that aren't there never count.
pub fn letters_go_to_places_that_are_there()
    ensures { OnlyToThere }
{}

/// What a place comes to depends on its own state, its rest and its letters alone.
pub fn a_place_depends_on_its_own()
    ensures { OnItsOwn }
{}

/// Once over, every later round is the same and over.
pub fn over_stays()
    ensures { OverStays }
{}

/// It is not over while a place doesn't rest, nor while a letter is under way.
pub fn over_means_nothing_left()
    ensures awake { NotWhileAwake }
    ensures letter { NotWhileUnderWay }
{}
