//! Laws of pieces, each the contract of a call that does nothing.
ghost use Rattle.std.specs.Prelude.{◌≡◌, ℕ, ◌≤◌, true, List, [], ◌∷◌, ◌++◌, map, length};
ghost use Rattle.std.specs.List.{AllByRecursion};
ghost use Rattle.fx_math.specs.declared.lenses.Lens.{Lens};
ghost use Rattle.pf_model.specs.Angles.{Viewpoint};
ghost use Rattle.pf_model.specs.Graphs.{Look};
ghost use Rattle.pf_model.specs.Walks.{Instance, instances};
ghost use Rattle.draw_list.specs.Lists.{instances_in};
ghost use Rattle.draw_list.specs.Order.{in_draw_order};
ghost use Rattle.draw_list.specs.Shown.{shown, draw_list};
ghost use Rattle.cull_walk.specs.Culling.{HaveOnePictureThrough};
ghost use Rattle.cull_walk.specs.Premises.{unnamed};
ghost use Rattle.stream_stages.specs.Pieces.{PieceParts, joined, is_ended, in_sending_order, ArePiecesOf, AreSentOf, GlassAddsUp};
ghost use Rattle.stream_stages.specs.Woven.{woven, IsFarAsGlass};
ghost use Rattle.stream_stages.specs.WholeFrames.{WholeFramesLaw};

use cull_walk::laws::{
    culling_keeps_the_picture, draw_order_is_one, shown_instances_are_those_in_sight,
};

/// The law of right pieces. However what is shown is cut, the picture of the joined pieces is that of the draw list and
/// that of the whole walk. They have as many instances as are shown, and their glass is drawn piece by piece as that of
/// all of them. Put in the order in which they are drawn, they are the draw list.
pub fn right_pieces_keep_the_picture()
    ensures list { (look : Look) → (time : ℕ) → (v : Viewpoint) → (lens : Lens) → (n : ℕ) → (ps : List PieceParts)
        → ArePiecesOf n (shown look time v lens) ps → HaveOnePictureThrough lens (draw_list look time v lens) (joined ps) }
    ensures walk { (look : Look) → (time : ℕ) → (v : Viewpoint) → (lens : Lens) → (n : ℕ) → (ps : List PieceParts)
        → ArePiecesOf n (shown look time v lens) ps → HaveOnePictureThrough lens (instances look time v) (joined ps) }
    ensures count { (n : ℕ) → (xs : List Instance) → (ps : List PieceParts) → ArePiecesOf n xs ps
        → length (joined ps) ≡ length xs }
    ensures glass { (n : ℕ) → (xs : List Instance) → (ps : List PieceParts) → ArePiecesOf n xs ps → GlassAddsUp ps }
    ensures order { (look : Look) → (time : ℕ) → (v : Viewpoint) → (lens : Lens) → (n : ℕ) → (ps : List PieceParts)
        → ArePiecesOf n (shown look time v lens) ps
        → in_draw_order (joined ps) ≡ map unnamed (draw_list look time v lens) }
{
    culling_keeps_the_picture();
    draw_order_is_one();
    shown_instances_are_those_in_sight();
}

/// Piece by piece a walk sends a prefix of what it has to send: each piece has the first items of what is to come. Once
/// nothing is to come, and the last piece alone has the mark, the pieces are right.
pub fn pieces_one_after_the_other_are_right()
    ensures first { (all : List Instance) → AreSentOf all [] all }
    ensures next { (all rest more : List Instance) → (ps : List PieceParts) → (p : PieceParts)
        → AreSentOf all ps rest → rest ≡ p.items ++ more → AreSentOf all (ps ++ p ∷ []) more }
    ensures right { (n : ℕ) → (xs : List Instance) → (ps : List PieceParts)
        → AllByRecursion (λ p. length p.items ≤ n) ps → is_ended ps ≡ true
        → AreSentOf (map unnamed (in_sending_order xs)) ps [] → ArePiecesOf n xs ps }
{}

/// A draw list made of instances draws them, except for their ids; what is shown may be made into one.
pub fn woven_lists_draw_their_instances()
    ensures instances { (xs : List Instance) → AllByRecursion IsFarAsGlass xs → instances_in (woven xs) ≡ map unnamed xs }
    ensures shown { (look : Look) → (time : ℕ) → (v : Viewpoint) → (lens : Lens)
        → AllByRecursion IsFarAsGlass (shown look time v lens) }
{}

/// Let the cull and the draw of a stream keep their parts behind an application whose part is kept. Then an ordinary
/// cull and an ordinary draw may have received the first packets that the application sent, and sent what returned to
/// it. So what is known of an ordinary pipe holds of one whose draw lists are streamed.
pub fn streamed_frames_are_whole_ones()
    ensures { WholeFramesLaw }
{
    right_pieces_keep_the_picture();
}
