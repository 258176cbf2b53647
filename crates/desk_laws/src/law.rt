// What is known of the definitions.
ghost use Rattle.desk_laws.specs.Cutting.{CutsInPieces};
ghost use Rattle.desk_laws.specs.Edges.{PicturesKeepEdges};
ghost use Rattle.desk_laws.specs.Following.{MessagesChangeOne, MessagesReadOne, OthersKeepRows, ListsFollowOne, ListsFollowEnd};

/// Does nothing. Its contract says that a guest's bytes may come in any pieces: where no fault stands
/// among the units of some bytes, the units of these and more bytes are those units, and then the
/// units of what they left followed by the other bytes.
pub fn law_of_cutting()
    ensures { CutsInPieces }
{}

/// Does nothing. Its contract says that a message changes the row of its own window (where the row
/// goes, others of its guest that named it name 0), and no row of another guest; that the pixels which
/// it reads are those of its own window; that the lists of the layers, where they had each mapped row
/// once, follow such a change by one step (the row goes, comes on top of its layer and to the front of
/// the focus list, or changes into the other layer); and that they lose a guest's rows, and no others,
/// at its session's end.
pub fn law_of_changes()
    ensures one_window { MessagesChangeOne }
    ensures own_pixels { MessagesReadOne }
    ensures others { OthersKeepRows }
    ensures one_row { ListsFollowOne }
    ensures an_end { ListsFollowEnd }
{}

/// Does nothing. Its contract says that two pixels of a picture that touch sideways, upright or
/// diagonally never show the contents of two windows: a ring of at least one pixel lies between.
pub fn law_of_edges()
    ensures { PicturesKeepEdges }
{}
