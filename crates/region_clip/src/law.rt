// What is known of regions, however they came to be.
ghost use Rattle.region_clip.specs.Regions.{RegionsAreDisjoint, RegionsHaveWhatWasAdded};

/// Does nothing. Its contract says that the rectangles of a region that some were added to since it was new or
/// cleared have no common points, and that they have exactly the pixels of those that were added.
pub fn law_of_regions()
    ensures disjoint { RegionsAreDisjoint }
    ensures pixels { RegionsHaveWhatWasAdded }
{}
