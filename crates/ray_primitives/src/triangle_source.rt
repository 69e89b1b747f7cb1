use crate::triangle_info::TriangleInfo;
use ray_bytes::{IndexView, VertexView};
use ray_geom::Matrix;
use std::marker::Model;

// What a geometry of triangles is read from.
#[derive(Drop)]
pub(crate) struct TriangleSource<'a> {
    pub(crate) info: TriangleInfo,
    pub(crate) vertices: VertexView<'a>,
    pub(crate) indices: Option<IndexView<'a>>,
    pub(crate) matrix: Option<Matrix>,
}

impl<'a> Model for TriangleSource<'a> {
    ghost use Rattle.ray_primitives.specs.TriangleReading.{TriangleSource};

    ghost Value = { TriangleSource };

    ghost view = { λ s. record {
      info = s.info;
      vertices = s.vertices;
      indices = s.indices;
      matrix = s.matrix;
    } };
}
