// Patterns: whether one gives the words of a range.
ghost use Rattle.std.specs.Prelude.{◌∷◌, [], MatchOption};
ghost use Rattle.cd_base.specs.Words.{pattern_word};
ghost use Rattle.cd_tree.specs.Legal.{GivesWords, Differs, DiffersFirst};
ghost use Rattle.cd_field.specs.FieldModel.{ArePresent};

use cd_base::{Pattern, Place, Range};
use cd_field::Field;

/// The least place of a range whose word is not the pattern's, with that word. It takes no memory.
pub fn first_other<F: Field>(range: Range, pattern: Pattern, field: &F) -> Option<(Place, u64)>
    requires present { ArePresent (F.model field.now) (range ∷ []) }
    ensures { MatchOption result (GivesWords (F.model field.now).words range pattern) (λ other. Differs other.0 (pattern_word pattern other.0.index) other.1 range pattern × DiffersFirst (F.model field.now).words other.0 other.1 range pattern) }
{
    for index in range.low..range.high {
        let place = Place {
            region: range.region,
            index,
        };
        let found = field.read(place);
        if found != pattern.at(index) {
            return Some((place, found));
        }
    }
    None
}
