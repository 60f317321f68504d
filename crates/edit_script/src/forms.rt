//! The forms of a script's lines, each by its name and the words after it.
ghost use Rattle.std.specs.Prelude.{◌≡◌, map};
ghost use Rattle.edit_script.specs.Forms.{
  bare_form,
  classes_form,
  cut_form,
  drop_form,
  edge_form,
  edit_form,
  command_form,
  move_form,
  node_form,
  pin_form,
  set_form,
  size_form,
  unpin_form,
  unvia_form,
  via_form,
};

use crate::values::{count_of, id_of, number_of, setting_of};
use scene_model::{Command, Dirs, Edit};

/// The command with this name and the words after it, if they have a valid form.
pub(crate) fn form_of(name: &[u8], args: &[&[u8]]) -> Option<Command>
    ensures { result ≡ command_form name.now (map (λ w. w.now) args.now) }
{
    if args.is_empty() {
        bare_form(name)
    } else {
        edit_form(name, args).map(Command::Edit)
    }
}

fn bare_form(name: &[u8]) -> Option<Command>
    ensures { result ≡ bare_form name.now }
{
    if name == b"begin".as_slice() {
        Some(Command::Begin)
    } else if name == b"commit".as_slice() {
        Some(Command::Commit)
    } else if name == b"abort".as_slice() {
        Some(Command::Abort)
    } else if name == b"undo".as_slice() {
        Some(Command::Undo)
    } else if name == b"redo".as_slice() {
        Some(Command::Redo)
    } else {
        None
    }
}

fn edit_form(name: &[u8], args: &[&[u8]]) -> Option<Edit>
    ensures { result ≡ edit_form name.now (map (λ w. w.now) args.now) }
{
    if name == b"node".as_slice() {
        node_form(args)
    } else if name == b"move".as_slice() {
        move_form(args)
    } else if name == b"size".as_slice() {
        size_form(args)
    } else if name == b"drop".as_slice() {
        drop_form(args)
    } else if name == b"pin".as_slice() {
        pin_form(args)
    } else if name == b"unpin".as_slice() {
        unpin_form(args)
    } else if name == b"edge".as_slice() {
        edge_form(args)
    } else if name == b"cut".as_slice() {
        cut_form(args)
    } else if name == b"classes".as_slice() {
        classes_form(args)
    } else if name == b"via".as_slice() {
        via_form(args)
    } else if name == b"unvia".as_slice() {
        unvia_form(args)
    } else if name == b"set".as_slice() {
        set_form(args)
    } else {
        None
    }
}

fn node_form(args: &[&[u8]]) -> Option<Edit>
    ensures { result ≡ node_form (map (λ w. w.now) args.now) }
{
    let [id, x, y, w, h] = args else {
        return None;
    };
    Some(Edit::AddNode {
        id: id_of(id)?,
        x: number_of(x)?,
        y: number_of(y)?,
        w: number_of(w)?,
        h: number_of(h)?,
    })
}

fn move_form(args: &[&[u8]]) -> Option<Edit>
    ensures { result ≡ move_form (map (λ w. w.now) args.now) }
{
    let [id, x, y] = args else {
        return None;
    };
    Some(Edit::MoveNode {
        id: id_of(id)?,
        x: number_of(x)?,
        y: number_of(y)?,
    })
}

fn size_form(args: &[&[u8]]) -> Option<Edit>
    ensures { result ≡ size_form (map (λ w. w.now) args.now) }
{
    let [id, w, h] = args else {
        return None;
    };
    Some(Edit::SizeNode {
        id: id_of(id)?,
        w: number_of(w)?,
        h: number_of(h)?,
    })
}

fn drop_form(args: &[&[u8]]) -> Option<Edit>
    ensures { result ≡ drop_form (map (λ w. w.now) args.now) }
{
    let [id] = args else {
        return None;
    };
    Some(Edit::DropNode { id: id_of(id)? })
}

fn pin_form(args: &[&[u8]]) -> Option<Edit>
    ensures { result ≡ pin_form (map (λ w. w.now) args.now) }
{
    let [id, class, dx, dy, dirs] = args else {
        return None;
    };
    Some(Edit::AddPin {
        id: id_of(id)?,
        class: count_of(class)?,
        dx: number_of(dx)?,
        dy: number_of(dy)?,
        dirs: Dirs::from_letters(dirs)?,
    })
}

fn unpin_form(args: &[&[u8]]) -> Option<Edit>
    ensures { result ≡ unpin_form (map (λ w. w.now) args.now) }
{
    let [id, place] = args else {
        return None;
    };
    Some(Edit::DropPin {
        id: id_of(id)?,
        place: count_of(place)?,
    })
}

fn edge_form(args: &[&[u8]]) -> Option<Edit>
    ensures { result ≡ edge_form (map (λ w. w.now) args.now) }
{
    let [from, to, from_class, to_class] = args else {
        return None;
    };
    Some(Edit::AddEdge {
        from: id_of(from)?,
        to: id_of(to)?,
        from_class: count_of(from_class)?,
        to_class: count_of(to_class)?,
    })
}

fn cut_form(args: &[&[u8]]) -> Option<Edit>
    ensures { result ≡ cut_form (map (λ w. w.now) args.now) }
{
    let [number] = args else {
        return None;
    };
    Some(Edit::CutEdge {
        number: count_of(number)?,
    })
}

fn classes_form(args: &[&[u8]]) -> Option<Edit>
    ensures { result ≡ classes_form (map (λ w. w.now) args.now) }
{
    let [number, from_class, to_class] = args else {
        return None;
    };
    Some(Edit::SetClasses {
        number: count_of(number)?,
        from_class: count_of(from_class)?,
        to_class: count_of(to_class)?,
    })
}

fn via_form(args: &[&[u8]]) -> Option<Edit>
    ensures { result ≡ via_form (map (λ w. w.now) args.now) }
{
    let [number, place, x, y] = args else {
        return None;
    };
    Some(Edit::AddVia {
        number: count_of(number)?,
        place: count_of(place)?,
        x: number_of(x)?,
        y: number_of(y)?,
    })
}

fn unvia_form(args: &[&[u8]]) -> Option<Edit>
    ensures { result ≡ unvia_form (map (λ w. w.now) args.now) }
{
    let [number, place] = args else {
        return None;
    };
    Some(Edit::DropVia {
        number: count_of(number)?,
        place: count_of(place)?,
    })
}

fn set_form(args: &[&[u8]]) -> Option<Edit>
    ensures { result ≡ set_form (map (λ w. w.now) args.now) }
{
    let [what, value] = args else {
        return None;
    };
    Some(Edit::Set {
        what: setting_of(what)?,
        value: number_of(value)?,
    })
}
