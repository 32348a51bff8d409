use crate::field::Field;
use crate::object::Table;
use crate::shown::Shown;

// A table for each number of fields.

impl<P: Shown> Table for [Field<P>; 1] {
    ghost use Rattle.al_fields.specs.Members.{fields_by};

    type Piece = P;

    ghost fields = { λ fields. fields_by P.said fields };

    fn as_fields(&self) -> &[Field<P>] {
        self.as_slice()
    }
}

impl<P: Shown> Table for [Field<P>; 2] {
    ghost use Rattle.al_fields.specs.Members.{fields_by};

    type Piece = P;

    ghost fields = { λ fields. fields_by P.said fields };

    fn as_fields(&self) -> &[Field<P>] {
        self.as_slice()
    }
}

impl<P: Shown> Table for [Field<P>; 3] {
    ghost use Rattle.al_fields.specs.Members.{fields_by};

    type Piece = P;

    ghost fields = { λ fields. fields_by P.said fields };

    fn as_fields(&self) -> &[Field<P>] {
        self.as_slice()
    }
}

impl<P: Shown> Table for [Field<P>; 4] {
    ghost use Rattle.al_fields.specs.Members.{fields_by};

    type Piece = P;

    ghost fields = { λ fields. fields_by P.said fields };

    fn as_fields(&self) -> &[Field<P>] {
        self.as_slice()
    }
}

impl<P: Shown> Table for [Field<P>; 5] {
    ghost use Rattle.al_fields.specs.Members.{fields_by};

    type Piece = P;

    ghost fields = { λ fields. fields_by P.said fields };

    fn as_fields(&self) -> &[Field<P>] {
        self.as_slice()
    }
}

impl<P: Shown> Table for [Field<P>; 6] {
    ghost use Rattle.al_fields.specs.Members.{fields_by};

    type Piece = P;

    ghost fields = { λ fields. fields_by P.said fields };

    fn as_fields(&self) -> &[Field<P>] {
        self.as_slice()
    }
}

impl<P: Shown> Table for [Field<P>; 7] {
    ghost use Rattle.al_fields.specs.Members.{fields_by};

    type Piece = P;

    ghost fields = { λ fields. fields_by P.said fields };

    fn as_fields(&self) -> &[Field<P>] {
        self.as_slice()
    }
}

impl<P: Shown> Table for [Field<P>; 8] {
    ghost use Rattle.al_fields.specs.Members.{fields_by};

    type Piece = P;

    ghost fields = { λ fields. fields_by P.said fields };

    fn as_fields(&self) -> &[Field<P>] {
        self.as_slice()
    }
}

impl<P: Shown> Table for [Field<P>; 13] {
    ghost use Rattle.al_fields.specs.Members.{fields_by};

    type Piece = P;

    ghost fields = { λ fields. fields_by P.said fields };

    fn as_fields(&self) -> &[Field<P>] {
        self.as_slice()
    }
}
