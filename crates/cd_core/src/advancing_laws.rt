//! Laws of an advance as a whole: a domain that moved fits, stands where its reading has come to, and goes on; what stays of it.
ghost use Rattle.cd_core.specs.Bounds.{AdvancingAnswersLapses, AdvancingStaysInside};
ghost use Rattle.cd_core.specs.Returning.{AdvancingGoesOn, AdvancingStays};
ghost use Rattle.cd_core.specs.StateLaws.{AdvancingFits, AdvancingStands, TriesComeToGroups, TriesComeToEnds};

use crate::asking_laws::sending_stands;
use crate::laws_below::laws_below;
use crate::sending_laws::sending_fits;
use crate::trying_laws::{completing_fits, escalating_fits, tries_fit};

/// The tries of a domain that stands come to the group at which its reading waits, or to its end as its reading does.
pub fn tries_come_where_readings_do()
    ensures groups { TriesComeToGroups }
    ensures ends { TriesComeToEnds }
{
    laws_below();
}

/// A domain that moved fits, and so do the members that it sent.
pub fn advancing_fits()
    ensures { AdvancingFits }
{
    laws_below();
    tries_fit();
    sending_fits();
    completing_fits();
    escalating_fits();
}

/// A domain that stood stands where it moved to, and the members that it sent answer what is asked of them.
pub fn advancing_stands()
    ensures { AdvancingStands }
{
    laws_below();
    tries_come_where_readings_do();
    tries_fit();
    advancing_fits();
    sending_stands();
}

/// A domain that moved is the same domain, of the same script and store.
pub fn advancing_stays()
    ensures { AdvancingStays }
{
    laws_below();
    tries_fit();
}

/// It has ended, or waits with fewer points left.
pub fn advancing_goes_on()
    ensures { AdvancingGoesOn }
{
    laws_below();
}

/// Outside of what it reaches its machine is as it was.
pub fn advancing_stays_inside()
    ensures { AdvancingStaysInside }
{
    laws_below();
    tries_fit();
}

/// Each lapse that it told has a gone answer of its own.
pub fn advancing_answers_lapses()
    ensures { AdvancingAnswersLapses }
{}
