//! Laws of the runs of images of sound programs.

ghost use Rattle.image_runs.specs.ImageRuns.{LinkedImagesShowAll, LinkedImagesShowNoMore};
ghost use Rattle.image_runs.specs.ImageMeaning.{CompiledRealise, CompiledShowNothingMore};
ghost use Rattle.image_runs.specs.RunLaws.{AgreeingAreKnown, AgreementSimulates, ImagesShowAll, ImagesShowNoMore};

/// What the step laws ask of a configuration holds of the actual one that the machine shows, and
/// after a step too; so steps that are matched from it keep the relation, and whole runs of the
/// image show what the program means, and nothing more.
pub fn laws()
    ensures known { AgreeingAreKnown }
    ensures simulate { AgreementSimulates }
    ensures all { ImagesShowAll }
    ensures no_more { ImagesShowNoMore }
{}

/// The same of bytes that are read as the image that a sound program is linked to.
pub fn images()
    ensures all { LinkedImagesShowAll }
    ensures no_more { LinkedImagesShowNoMore }
{}

/// The image that a sound program is linked to realises the program, and shows nothing more.
pub fn compiled()
    ensures realise { CompiledRealise }
    ensures nothing_more { CompiledShowNothingMore }
{}
