// A pattern's text read into an image.
#![tactic(auto)]
